// Reads query text (document 01: ask text) into a query.
#![tactic(auto)]

ghost use Rattle.std.specs.Prelude.{◌≡◌, false, ◌&&◌, eqb};
ghost use Rattle.laws.specs.Limits.{largest_number};
ghost use Rattle.text.specs.inner.Finding.{found_at};
ghost use Rattle.refusal.specs.Numbers.{refused};
ghost use Rattle.query_text.specs.Form.{rows};
ghost use Rattle.query_text.specs.QueryText.{closed, next_stage, out_of_order, over, ninth, line_refusal, with_form, with_line, told_of, read_query};

use query::{Levels, Query};
use refusal::Refusal;
use text::{Form, Found, Refused};

// The largest number of a line. A larger one is read as one above it.
const LARGEST_NUMBER: u32 = 4_294_967_295;

const LONGEST_TEXT: usize = 4_096;

// The kinds of line, in the order in which they stand. An unfinished one is below them all.
// Kept: numbers, since `text::row` takes them and the reader of plant text misses its bar with enums; a kind is compared with the stage.
const UNFINISHED: u32 = 0;

const OPEN: u32 = 2;

const REQUIRED: u32 = 3;

const FORBIDDEN: u32 = 4;

const LEVEL: u32 = 5;

const ANY_LEVEL: u32 = 6;

const START: u32 = 7;

const BUDGET: u32 = 8;

const CLOSE: u32 = 9;

// The stage before the first line, and once the query is closed.
const FIRST_STAGE: u64 = OPEN as u64;

const CLOSED: u64 = CLOSE as u64 + 1;

// What the lines so far make: the lowest kind that the next line may be of, and the query. A stage is wider than a kind, so that each kind has
// one after it.
#[derive(Clone, Copy)]
struct Draft {
    stage: u64,
    query: Query,
}

// The query that a text writes, or why and at which line it is refused.
pub fn read(text: &[u8]) -> Result<Query, Refused>
    ensures { told_of result ≡ read_query text.now }
{
    if LONGEST_TEXT < text.len() {
        return Err(Refused {
            line: 0,
            refusal: Refusal::QueryTooLong,
        });
    }
    let mut draft = Draft {
        stage: FIRST_STAGE,
        query: Query::empty(),
    };
    let mut at = 0;
    let mut line = 1;
    // It goes from line to line, and these are of any length.
    while !is_finished(draft, text.len() - at) {
        let Found { form, next } = line_at(text, at);
        check_line(draft, form).map_err(|refusal| Refused { line, refusal })?;
        draft = with_line(draft, form);
        at = next;
        line += 1;
    }
    Ok(draft.query)
}

// Whether the text is at its end and the query is closed.
fn is_finished(draft: Draft, left: usize) -> bool
    ensures { result ≡ (closed draft && eqb left 0) }
{
    draft.stage == CLOSED && left == 0
}

// The line that begins at `at`, by the rows of the table, one asked after the other.
fn line_at(text: &[u8], at: usize) -> Found
    ensures { result ≡ found_at largest_number rows text.now at }
{
    let form = text::no_form();
    let form = text::row(text, at, OPEN, b"(ask", LARGEST_NUMBER, form);
    let form = text::row(text, at, REQUIRED, b"(need #)", LARGEST_NUMBER, form);
    let form = text::row(text, at, FORBIDDEN, b"(not #)", LARGEST_NUMBER, form);
    let form = text::row(text, at, LEVEL, b"(level # #)", LARGEST_NUMBER, form);
    let form = text::row(text, at, ANY_LEVEL, b"(level any)", LARGEST_NUMBER, form);
    let form = text::row(text, at, START, b"(from #)", LARGEST_NUMBER, form);
    let form = text::row(text, at, BUDGET, b"(moves #)", LARGEST_NUMBER, form);
    let form = text::row(text, at, CLOSE, b")", LARGEST_NUMBER, form);
    text::line_at(text, at, form)
}

// Whether a line is refused, by the first row that applies.
#[tactic(auto, unfolding(crate::specs::QueryText::line_refusal))]
fn check_line(draft: Draft, form: Form) -> Result<(), Refusal>
    ensures { refused result ≡ line_refusal draft form }
{
    match form.kind {
        _ if draft.stage == CLOSED => Err(Refusal::BytesAfterQuery),
        UNFINISHED => Err(Refusal::UnfinishedQuery),
        kind if is_out_of_order(draft.stage, kind) => Err(Refusal::QueryForm),
        _ if is_over(form) => Err(Refusal::NumberTooLarge),
        kind if is_ninth(draft.query, kind) => Err(Refusal::NinthTerm),
        _ => Ok(()),
    }
}

// The lowest kind that the line after a line may be of: its own, where it may stand more than once. No level line follows either of the two.
fn next_stage(kind: u32) -> u64
    ensures { result ≡ next_stage kind }
{
    match kind {
        REQUIRED | FORBIDDEN => u64::from(kind),
        LEVEL => u64::from(START),
        _ => u64::from(kind) + 1,
    }
}

// Whether a line of a kind may not stand at a stage: its kind is too low, or it is first and does not open the query.
fn is_out_of_order(stage: u64, kind: u32) -> bool
    ensures { result ≡ out_of_order stage kind }
{
    u64::from(kind) < stage || (stage == FIRST_STAGE && OPEN < kind)
}

// Whether a number of a line is over the limit.
fn is_over(form: Form) -> bool
    ensures { result ≡ over form }
{
    let limit = u64::from(LARGEST_NUMBER);
    limit < form.before || limit < form.number
}

// Whether a line is a ninth need or not line.
fn is_ninth(query: Query, kind: u32) -> bool
    ensures { result ≡ ninth query kind }
{
    match kind {
        REQUIRED => Query::MOST_TERMS <= query.required.count,
        FORBIDDEN => Query::MOST_TERMS <= query.forbidden.count,
        _ => false,
    }
}

// What the lines make with one line more.
fn with_line(draft: Draft, form: Form) -> Draft
    requires { line_refusal draft form ≡ 0 }
    ensures { result ≡ with_line draft form }
{
    Draft {
        stage: next_stage(form.kind),
        query: with_form(draft.query, form),
    }
}

// The query with one line more.
fn with_form(query: Query, form: Form) -> Query
    requires { over form ≡ false }
    ensures { result ≡ with_form query form }
{
    let before = form.before as u32;
    let number = form.number as u32;
    match form.kind {
        REQUIRED => query.with_required(number),
        FORBIDDEN => query.with_forbidden(number),
        LEVEL => query.with_levels(Levels::Range(before, number)),
        ANY_LEVEL => query.with_levels(Levels::Any),
        START => query.with_start(number),
        BUDGET => query.with_budget(number),
        _ => query,
    }
}
