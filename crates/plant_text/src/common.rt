// The lines that most of a plant text is made of, found by their bytes and without the table.
ghost use Rattle.std.specs.Prelude.{◌≡◌, cond, ◌+◌, ◌≤◌, eqb, length, IfSome};
ghost use Rattle.text.specs.Forms.{plain};
ghost use Rattle.text.specs.inner.Finding.{found_at};
ghost use Rattle.plant_text.specs.Form.{own_line, all_line, close_line, rows};
ghost use Rattle.plant_text.specs.inner.Rest.{highest_known};
ghost use Rattle.plant_text.specs.inner.Common.{Bracketed, Four};

use crate::lines::{ALL, DEVICE, LIMIT, OWN, TERM};
use text::{Form, Found, NumberAt};

// The four bytes after the bracket of `(dev `, `(mark `, `(own ` and `(all `, as numbers.
const DEV_WORD: u32 = 544_630_116;

const MARK_WORD: u32 = 1_802_658_157;

const OWN_WORD: u32 = 544_110_447;

const ALL_WORD: u32 = 543_976_545;

// A line that opens with a bracket: the four bytes after it, and a number further on with the index after it.
#[derive(Clone, Copy, Debug, PartialEq, Eq)]
struct Start {
    value: u64,
    end: usize,
    word: u32,
}

// A line of a kind and a number; the next begins at `next`.
pub fn line_of(kind: u32, number: u64, next: usize) -> Found
    ensures { result ≡ record { form = record { kind = kind; before = 0; number = number }; next = next } }
{
    let form = Form {
        before: 0,
        number,
        kind,
    };
    Found { form, next }
}

// The four bytes from `at` on, as one number.
fn four(text: &[u8], at: usize) -> u32
    requires { at + 4 ≤ length text.now }
    ensures { Four text.now at result }
{
    u32::from_le_bytes([text[at], text[at + 1], text[at + 2], text[at + 3]])
}

// The start of the line at `at`, with the number that begins `skip` bytes after it.
fn start_at(text: &[u8], at: usize, skip: usize) -> Option<Start>
    requires at_in_bounds { at ≤ length text.now }
    requires skip_bound { skip ≤ 6 }
    ensures { IfSome result (Bracketed text.now at skip) }
{
    if text.len() - at < 6 || text[at] != b'(' {
        return None;
    }
    let word = four(text, at + 1);
    let from = at + skip;
    let NumberAt { value, end } = text::number_at(text, from, LIMIT);
    if end == from {
        return None;
    }
    Some(Start { value, end, word })
}

// The line of a device.
pub fn device_line(text: &[u8], at: usize) -> Option<Found>
    requires { at ≤ length text.now }
    ensures { IfSome result (λ x. x ≡ found_at highest_known rows text.now at) }
{
    let Start { value, end, word } = start_at(text, at, 5)?;
    if !text::is_at(text, end, b"\n") || word != DEV_WORD {
        return None;
    }
    Some(line_of(DEVICE, value, end + 1))
}

// The line of a term.
pub fn term_line(text: &[u8], at: usize) -> Option<Found>
    requires { at ≤ length text.now }
    ensures { IfSome result (λ x. x ≡ found_at highest_known rows text.now at) }
{
    let Start { value, end, word } = start_at(text, at, 6)?;
    if !text::is_at(text, end, b"\n") || word != MARK_WORD || text[at + 5] != b' ' {
        return None;
    }
    Some(line_of(TERM, value, end + 1))
}

// The kind of a posting's line, by its word, or 0. Which it is follows no rule, so no branch hangs on it.
// Kept: from an `Option` the compiler makes such a branch, and postings of both kinds take 1.08 times as long.
fn posting_kind(word: u32) -> u32
    ensures { result ≡ cond (eqb word 543_976_545) all_line (cond (eqb word 544_110_447) own_line 0) }
{
    let own = if word == OWN_WORD { OWN } else { 0 };
    if word == ALL_WORD { ALL } else { own }
}

// The line of a posting. Its word is looked at last.
pub fn posting_line(text: &[u8], at: usize) -> Option<Found>
    requires { at ≤ length text.now }
    ensures { IfSome result (λ x. x ≡ found_at highest_known rows text.now at) }
{
    let Start { value, end, word } = start_at(text, at, 5)?;
    if !text::is_at(text, end, b")\n") {
        return None;
    }
    let kind = posting_kind(word);
    if kind == 0 {
        return None;
    }
    Some(line_of(kind, value, end + 2))
}

// Where the next line begins, if the line at `at` is a closing bracket.
pub fn close_at(text: &[u8], at: usize) -> Option<usize>
    requires { at ≤ length text.now }
    ensures { IfSome result (λ next. record { form = plain close_line; next = next } ≡ found_at highest_known rows text.now at) }
{
    if text::is_at(text, at, b")\n") {
        Some(at + 2)
    } else {
        None
    }
}
