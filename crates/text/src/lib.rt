// What all texts share: lines, numbers and forms, as they are read.
#![tactic(auto)]

ghost use Rattle.std.specs.Prelude.{◌≡◌, position, cond, [], ◌∷◌, ◌+◌, ◌-◌, ◌*◌, ◌<◌, ◌≤◌, eqb, length, get_or, drop};
ghost use Rattle.text.specs.Lines.{begins, line_at, whole_at, next_at};
ghost use Rattle.text.specs.Decimal.{digit, up_to, number_at};
ghost use Rattle.text.specs.Patterns.{fit, capped_fit};
ghost use Rattle.text.specs.Forms.{other, unfinished, plain, row_after};
ghost use Rattle.text.specs.inner.Parts.{zero_at, On, Past};

use refusal::Refusal;

// The kinds of every text: bytes that end without a line feed, and a line that fits no pattern.
// Kept: numbers, as in the definitions. With an enum of each text's own kinds a plant is read in 1.2 of the plain reader's time, past the bar of 1.1.
const UNFINISHED: u32 = 0;

const OTHER: u32 = 1;

// Why a text is refused, and at which line: 0 where it is too long.
#[derive(Clone, Copy, Debug, PartialEq, Eq)]
pub struct Refused {
    pub line: u32,
    pub refusal: Refusal,
}

// A number in a text: its value, one past the limit where it is above that, and where it ends: where it would begin, if none is there.
#[derive(Clone, Copy, Debug, PartialEq, Eq)]
pub struct NumberAt {
    pub value: u64,
    pub end: usize,
}

// The last number of a line that fits a pattern, and the one before it.
#[derive(Clone, Copy, Debug, PartialEq, Eq)]
pub struct Fit {
    pub before: u64,
    pub number: u64,
}

// The kind of a line, with its last number and the one before it.
#[derive(Clone, Copy, Debug, PartialEq, Eq)]
pub struct Form {
    pub before: u64,
    pub number: u64,
    pub kind: u32,
}

// A line's form, and where the next line begins.
#[derive(Clone, Copy, Debug, PartialEq, Eq)]
pub struct Found {
    pub form: Form,
    pub next: usize,
}

// A line that fits a pattern so far: the numbers that it has had, and where it goes on.
#[derive(Clone, Copy)]
struct Scan {
    before: u64,
    number: u64,
    at: usize,
}

// Whether the text goes on as `word` from `at` on. A position past the end counts as the end, here and below.
pub fn is_at(text: &[u8], at: usize, word: &[u8]) -> bool
    ensures { result ≡ begins word.now (drop at text.now) }
{
    text[at.min(text.len())..].starts_with(word)
}

// The number that begins at `at`: 0, or digits without a leading zero.
pub fn number_at(text: &[u8], at: usize, limit: u32) -> NumberAt
    ensures number { result ≡ number_at limit text.now at }
    ensures within { result.end ≤ length text.now }
{
    let Some(&first) = text.get(at) else {
        return NumberAt {
            value: 0,
            end: text.len(),
        };
    };
    match first {
        b'1'..=b'9' => digits_at(text, at, limit),
        b'0' => zero_at(text, at),
        _ => NumberAt { value: 0, end: at },
    }
}

// Whether the line that begins at `at` fits a pattern, in which `#` is a number.
pub fn fits(text: &[u8], at: usize, pattern: &[u8], limit: u32) -> Option<Fit>
    ensures { result ≡ capped_fit limit (fit pattern.now (line_at text.now at)) }
{
    let mut scan = Scan {
        before: 0,
        number: 0,
        at: at.min(text.len()),
    };
    for &p in pattern {
        scan = past(text, p, limit, scan)?;
    }
    let Scan { before, number, at } = scan;
    is_end_at(text, at).then_some(Fit { before, number })
}

// The form of the line that begins at `at`, where the rows of a table before this one gave `form`.
pub fn row(text: &[u8], at: usize, kind: u32, pattern: &[u8], limit: u32, form: Form) -> Form
    ensures { result ≡ row_after limit kind pattern.now (line_at text.now at) form }
{
    if form.kind != OTHER {
        return form;
    }
    match fits(text, at, pattern, limit) {
        Some(Fit { before, number }) => Form {
            before,
            number,
            kind,
        },
        None => form,
    }
}

// The form of a line that fits no pattern.
pub fn no_form() -> Form
    ensures { result ≡ plain other }
{
    plain(OTHER)
}

// The line that begins at `at`, whose form is `form` if it ends in a line feed.
pub fn line_at(text: &[u8], at: usize, form: Form) -> Found
    ensures form { result.form ≡ cond (whole_at text.now at) form (plain unfinished) }
    ensures next { result.next ≡ next_at text.now at }
{
    let from = at.min(text.len());
    match find(&text[from..], b'\n') {
        Some(length) => Found {
            form,
            next: from + length + 1,
        },
        None => Found {
            form: plain(UNFINISHED),
            next: text.len(),
        },
    }
}

// The index of the first byte of `s` that is `b`.
fn find(s: &[u8], b: u8) -> Option<usize>
    ensures { result ≡ position (λ x. eqb x b) s.now }
{
    s.iter().position(|&x| x == b)
}

// A form without numbers.
fn plain(kind: u32) -> Form
    ensures { result ≡ plain kind }
{
    Form {
        before: 0,
        number: 0,
        kind,
    }
}

// The number n with one more digit b, or one past the limit.
fn push(n: u64, b: u8, limit: u32) -> u64
    requires { (n ≤ limit + 1) × (48 ≤ b) × (b ≤ 57) }
    ensures { result ≡ up_to limit (n * 10 + (b - 48)) }
{
    let more = n * 10 + u64::from(b - b'0');
    more.min(u64::from(limit) + 1)
}

// The number that begins with the digit at `at`, which is not 0.
fn digits_at(text: &[u8], at: usize, limit: u32) -> NumberAt
    requires { (at < length text.now) × (49 ≤ get_or text.now at 0) × (get_or text.now at 0 ≤ 57) }
    ensures number { result ≡ number_at limit text.now at }
    ensures within { result.end ≤ length text.now }
{
    let mut value = 0;
    for (i, &b) in text[at..].iter().enumerate() {
        if !b.is_ascii_digit() {
            return NumberAt { value, end: at + i };
        }
        value = push(value, b, limit);
    }
    NumberAt {
        value,
        end: text.len(),
    }
}

// The number that begins with the `0` at `at`: no digit may follow it.
fn zero_at(text: &[u8], at: usize) -> NumberAt
    requires { at < length text.now }
    ensures { result ≡ zero_at text.now at }
{
    let end = match text.get(at + 1) {
        Some(b'0'..=b'9') => at,
        _ => at + 1,
    };
    NumberAt { value: 0, end }
}

// Whether the line that goes on at `at` does so with the byte b.
fn is_byte_at(text: &[u8], at: usize, b: u8) -> bool
    ensures { result ≡ begins (b ∷ []) (line_at text.now at) }
{
    match text.get(at) {
        Some(&c) => c != b'\n' && c == b,
        None => false,
    }
}

// Whether the line that goes on at `at` ends there.
fn is_end_at(text: &[u8], at: usize) -> bool
    ensures { result ≡ eqb (length (line_at text.now at)) 0 }
{
    match text.get(at) {
        Some(&b) => b == b'\n',
        None => true,
    }
}

// A line against one byte p of a pattern.
fn past(text: &[u8], p: u8, limit: u32, scan: Scan) -> Option<Scan>
    requires { On limit text.now scan }
    ensures { Past limit text.now p scan result }
{
    if p == b'#' {
        return past_number(text, limit, scan);
    }
    is_byte_at(text, scan.at, p).then_some(Scan {
        at: scan.at + 1,
        ..scan
    })
}

// A line against the `#` of a pattern.
fn past_number(text: &[u8], limit: u32, scan: Scan) -> Option<Scan>
    requires { On limit text.now scan }
    ensures { Past limit text.now 35 scan result }
{
    let NumberAt { value, end } = number_at(text, scan.at, limit);
    (end != scan.at).then_some(Scan {
        before: scan.number,
        number: value,
        at: end,
    })
}
