// The length of a text, known before a byte of it is written: one pass over each table.
ghost use Rattle.std.specs.Prelude.{◌≡◌, ℕ, ◌+◌, ◌≤◌, length, get_or};
ghost use Rattle.text.specs.Decimal.{numeral};
ghost use Rattle.plant_writer.specs.inner.Lengths.{whole_length};

use index::IndexTables;
use writing::digit_count_u32;

// The bytes of the lines for an entry: the digits of its number, and so many more.
fn line_length(extra: u32, number: u32) -> u32
    requires { extra ≤ 9 }
    ensures is { result ≡ extra + length (numeral number) }
    ensures few { result ≤ 19 }
{
    extra + digit_count_u32(number)
}

// The bytes of a whole text: the plant's two lines; a device's `(dev `, level, line feed, bracket and line feed; a term's `(mark `, number, line feed,
// bracket and line feed; and a posting's `(own ` or `(all `, device, bracket and line feed. A level code is a byte (`coded`).
pub fn text_length(level: &[u8], index: IndexTables) -> usize
    requires few_devices { length level.now ≤ 65_535 }
    requires few_terms { length index.terms.now ≤ 8_192 }
    requires few_postings { length index.postings.now ≤ 1_048_576 }
    ensures is { result ≡ whole_length level.now index.entry.terms.now index.entry.postings.now }
    ensures coded { (i : ℕ) → get_or level.now i 0 ≤ 255 }
{
    let IndexTables {
        terms,
        postings,
        ..
    } = index;
    let devices: u32 = level.iter().map(|&v| line_length(8, u32::from(v))).sum();
    let marks: u32 = terms.iter().map(|&t| line_length(9, u32::from(t))).sum();
    let notes: u32 = postings.iter().map(|&p| line_length(7, p / 2)).sum();
    9 + devices as usize + marks as usize + notes as usize
}
