// A query as it is handed over, and outcomes as they are handed back.
ghost use Rattle.std.specs.Prelude.{◌≡◌};
ghost use Rattle.c_api.specs.Handing.{levels_of, query_of, level_numbers, numbers_at, numbers_of, refusal_of, line_of, outcome_numbers};
ghost use Rattle.search.specs.Answer.{told};
ghost use Rattle.repair.specs.Outcome.{repaired_values};

use plant_text::Counts;
use query::{Levels, Query, terms_of};
use refusal::Refusal;
use repair::Repaired;
use search::Answer;
use text::Refused;

// Which level codes are wanted: any, true levels only, or a range.
fn levels_of(levels: u32, low: u32, high: u32) -> Levels
    ensures { result ≡ levels_of levels low high }
{
    match levels {
        0 => Levels::Any,
        1 => Levels::TrueOnly,
        _ => Levels::Range(low, high),
    }
}

// The query that is handed over as lists and numbers.
pub fn query_of(
    required: &[u32],
    forbidden: &[u32],
    levels: u32,
    low: u32,
    high: u32,
    start: u32,
    budget: u32,
) -> Query
    ensures { result ≡ query_of
        required.now forbidden.now (levels_of levels low high) start budget }
{
    Query {
        required: terms_of(required),
        forbidden: terms_of(forbidden),
        levels: levels_of(levels, low, high),
        start,
        budget,
    }
}

// Level codes as three numbers.
fn level_numbers(levels: Levels) -> [usize; 3]
    ensures { result ≡ level_numbers levels }
{
    match levels {
        Levels::Any => [0, 0, 0],
        Levels::TrueOnly => [1, 0, 0],
        Levels::Range(low, high) => [2, low as usize, high as usize],
    }
}

// Why a text is refused, or 0.
pub fn refusal_of<T>(read: &Result<T, Refused>) -> u32
    ensures { result ≡ refusal_of read.now }
{
    match read {
        Ok(_) => 0,
        Err(refused) => refused.refusal.number(),
    }
}

// The line at which a text is refused, or 0.
pub fn line_of<T>(read: &Result<T, Refused>) -> u32
    ensures { result ≡ line_of read.now }
{
    match read {
        Ok(_) => 0,
        Err(refused) => refused.line,
    }
}

// The numbers of a query text: its line where it is refused, and those of the query.
pub fn query_numbers(line: u32, query: Query) -> [usize; 8]
    ensures { result ≡ numbers_at line query }
{
    let [levels, low, high] = level_numbers(query.levels);
    [
        line as usize,
        query.required.count,
        query.forbidden.count,
        levels,
        low,
        high,
        query.start as usize,
        query.budget as usize,
    ]
}

// The numbers of a search, or zeros.
pub fn answer_numbers(found: Result<Answer, Refusal>) -> [u32; 4]
    ensures { result ≡ numbers_of (told found) }
{
    match found {
        Ok(a) => [a.count, a.position, a.passed, a.moves],
        Err(_) => [0; 4],
    }
}

// How many postings were dropped and how many are left, or zeros.
pub fn repaired_numbers(repaired: Result<Repaired, Refusal>) -> [usize; 2]
    ensures { result ≡ repaired_values repaired }
{
    match repaired {
        Ok(Repaired { dropped, left }) => [dropped, left],
        Err(_) => [0; 2],
    }
}

// The line of a plant text's refusal, and the numbers of devices, terms and postings.
pub fn outcome_numbers(read: Result<Counts, Refused>) -> [usize; 4]
    ensures { result ≡ outcome_numbers read }
{
    match read {
        Ok(made) => [0, made.devices, made.terms, made.postings],
        Err(refused) => [refused.line as usize, 0, 0, 0],
    }
}
