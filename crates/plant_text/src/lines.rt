// The lines of plant text.
ghost use Rattle.std.specs.Prelude.{◌≡◌, ◌≤◌, length};
ghost use Rattle.text.specs.inner.Finding.{found_at};
ghost use Rattle.plant_text.specs.Form.{rows, is_posting};
ghost use Rattle.plant_text.specs.inner.Rest.{highest_known, kind_refusal, Taken};

use crate::common::{close_at, device_line, line_of, posting_line, term_line};
use refusal::Refusal;
use text::{Found, Refused};

// Numbers above this are read as one above it.
pub const LIMIT: u32 = 65_535;

// The kinds of line.
const UNFINISHED: u32 = 0;

pub const PLANT: u32 = 2;

pub const DEVICE: u32 = 3;

pub const TERM: u32 = 4;

pub const OWN: u32 = 5;

pub const ALL: u32 = 6;

pub const CLOSE: u32 = 7;

// Where reading goes on, at which line, with how many devices or postings.
#[derive(Clone, Copy, Debug, PartialEq, Eq)]
pub struct Place {
    pub at: usize,
    pub count: usize,
    pub line: u32,
}

// The line that begins at `at`.
pub fn line_at(text: &[u8], at: usize) -> Found
    requires { at ≤ length text.now }
    ensures { result ≡ found_at highest_known rows text.now at }
{
    if let Some(next) = close_at(text, at) {
        return line_of(CLOSE, 0, next);
    }
    term_line(text, at).unwrap_or_else(|| plain_line(text, at))
}

// The same, where a device's line is likely.
pub fn device_at(text: &[u8], at: usize) -> Found
    requires { at ≤ length text.now }
    ensures { result ≡ found_at highest_known rows text.now at }
{
    device_line(text, at).unwrap_or_else(|| line_at(text, at))
}

// The same, where a posting's line is likely.
pub fn posting_at(text: &[u8], at: usize) -> Found
    requires { at ≤ length text.now }
    ensures { result ≡ found_at highest_known rows text.now at }
{
    posting_line(text, at).unwrap_or_else(|| line_at(text, at))
}

// The same by the rows of the table, one asked after the other.
fn plain_line(text: &[u8], at: usize) -> Found
    requires { at ≤ length text.now }
    ensures { result ≡ found_at highest_known rows text.now at }
{
    let form = text::no_form();
    let form = text::row(text, at, PLANT, b"(plant", LIMIT, form);
    let form = text::row(text, at, DEVICE, b"(dev #", LIMIT, form);
    let form = text::row(text, at, TERM, b"(mark #", LIMIT, form);
    let form = text::row(text, at, OWN, b"(own #)", LIMIT, form);
    let form = text::row(text, at, ALL, b"(all #)", LIMIT, form);
    let form = text::row(text, at, CLOSE, b")", LIMIT, form);
    text::line_at(text, at, form)
}

// Whether a line of a kind is a posting's.
pub fn is_posting(kind: u32) -> bool
    ensures { result ≡ is_posting kind }
{
    matches!(kind, OWN | ALL)
}

// Refuses a line of a kind where only the kind that is due may stand.
pub fn check_kind(due: u32, kind: u32, line: u32) -> Result<(), Refused>
    ensures { Taken (kind_refusal due kind) line result }
{
    if kind == UNFINISHED {
        return Err(Refused {
            line,
            refusal: Refusal::UnfinishedPlant,
        });
    }
    if kind != due {
        return Err(Refused {
            line,
            refusal: Refusal::PlantForm,
        });
    }
    Ok(())
}
