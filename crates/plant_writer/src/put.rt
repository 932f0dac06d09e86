// Lines and the whole of a text, written into the buffer. Each function returns where the next byte goes.
ghost use Rattle.std.specs.Prelude.{◌≡◌, cond, [], ◌∷◌, ◌++◌, map, ◌≤◌, length};
ghost use Rattle.plant.specs.Tables.{plant_of};
ghost use Rattle.index.specs.Postings.{shared};
ghost use Rattle.index.specs.Tables.{index_of};
ghost use Rattle.text.specs.Decimal.{numeral};
ghost use Rattle.text.specs.Patterns.{bytes};
ghost use Rattle.text.specs.Forms.{plain, with_number};
ghost use Rattle.writing.specs.inner.Puts.{Puts};
ghost use Rattle.plant_text.specs.Form.{device_line, term_line, close_line};
ghost use Rattle.written_text.specs.Forms.{posting_form, term_forms, terms_forms};
ghost use Rattle.written_text.specs.Text.{bytes_of, text_of};
ghost use Rattle.written_text.specs.inner.Nested.{Nested, Tiered, stretch};

use index::IndexTables;
use plant::DeviceTables;
use writing::{put_number, put_word};

// A line of a word, a number and an ending.
fn put_line(out: &mut [u8], at: usize, word: &[u8], n: u32, ending: &[u8]) -> usize
    ensures { Puts out.old at (word.now ++ (numeral n ++ ending.now)) out.new result }
{
    let first = at + put_word(out, at, word);
    let next = first + put_number(out, first, u64::from(n));
    next + put_word(out, next, ending)
}

// A closing bracket.
fn put_close(out: &mut [u8], at: usize) -> usize
    ensures { Puts out.old at (bytes_of (plain close_line ∷ [])) out.new result }
{
    at + put_word(out, at, b")\n")
}

// Devices a + 1 to e, which lie in `depth` branches, each with the devices that it feeds inside it. No device has more than 32 tiers, so a call is at
// most 33 deep. The loop goes from branch to branch.
// Kept: two slices, and no struct of tables: copied at each call inside a call, it costs 22 instructions a device.
fn put_devices(
    out: &mut [u8],
    at: usize,
    last: &[u16],
    level: &[u8],
    a: usize,
    e: usize,
    depth: usize,
) -> usize
    requires nested { Nested last.now a e }
    requires tiered { Tiered last.now a e depth }
    requires levels_to_e { e ≤ length level.now }
    ensures { Puts out.old at (bytes_of (stretch last.now level.now a e)) out.new result }
{
    let mut next = at;
    let mut i = a;
    while i < e {
        let inside = put_line(out, next, b"(dev ", u32::from(level[i]), b"\n");
        let end = usize::from(last[i]);
        let close = put_devices(out, inside, last, level, i + 1, end, depth + 1);
        next = put_close(out, close);
        i = end;
    }
    next
}

// A posting, by its device. Each word is a literal where it is written, so that it is stored at once.
fn put_posting(out: &mut [u8], at: usize, posting: u32) -> usize
    ensures { Puts out.old at (bytes_of (posting_form posting ∷ [])) out.new result }
{
    if posting % 2 == 1 {
        return put_line(out, at, b"(all ", posting / 2, b")\n");
    }
    put_line(out, at, b"(own ", posting / 2, b")\n")
}

// The postings of a list.
fn put_postings(out: &mut [u8], at: usize, list: &[u32]) -> usize
    ensures { Puts out.old at (bytes_of (map posting_form list.now)) out.new result }
{
    let mut next = at;
    for &posting in list {
        next = put_posting(out, next, posting);
    }
    next
}

// A term, with its postings inside it.
fn put_term(out: &mut [u8], at: usize, term: u16, list: &[u32]) -> usize
    ensures { Puts out.old at (bytes_of (term_forms term list.now)) out.new result }
{
    let first = put_line(out, at, b"(mark ", u32::from(term), b"\n");
    let close = put_postings(out, first, list);
    put_close(out, close)
}

// Every term.
fn put_terms(out: &mut [u8], at: usize, index: IndexTables) -> usize
    ensures { Puts out.old at (bytes_of (terms_forms (index_of index.entry) (length index.entry.terms.now))) out.new result }
{
    let mut next = at;
    for (i, &term) in index.terms.iter().enumerate() {
        next = put_term(out, next, term, index.list_at(i + 1));
    }
    next
}

// The whole text, from the start of the buffer. It does not depend on the roots.
pub fn put_plant(out: &mut [u8], plant: DeviceTables, index: IndexTables) -> usize
    requires nested { Nested plant.last.now 0 (length plant.last.now) }
    requires tiered { Tiered plant.last.now 0 (length plant.last.now) 0 }
    requires level_of_each { length plant.last.now ≤ length plant.level.now }
    ensures { Puts out.old 0 (text_of (plant_of plant.entry) (index_of index.entry)) out.new result }
{
    let first = put_word(out, 0, b"(plant\n");
    let DeviceTables { last, level, .. } = plant;
    let devices = put_devices(out, first, last, level, 0, last.len(), 0);
    let marks = put_terms(out, devices, index);
    put_close(out, marks)
}
