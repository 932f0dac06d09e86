// The refusals of a query: small tables, one after another, as the definition has them. Each can be asked of any query.
ghost use Rattle.std.specs.Prelude.{◌≡◌};
ghost use Rattle.refusal.specs.Numbers.{refused};
ghost use Rattle.query.specs.Query.{used};
ghost use Rattle.query.specs.Refusals.{no_terms, no_range, count_rows, term_rows, level_rows, start_rows, room_rows, common_refusal, query_refusal};

use crate::codes::true_level;
use crate::{Levels, Query, Terms};
use refusal::Refusal;

// Whether a term of a list is none.
fn no_terms(terms: &[u32]) -> bool
    ensures { result ≡ no_terms terms.now }
{
    terms
        .iter()
        .any(|&term| term == 0 || Query::HIGHEST_TERM < term)
}

// Whether a used term is none.
fn any_no_term(terms: Terms) -> bool
    ensures { result ≡ no_terms (used terms) }
{
    let count = terms.count.min(Query::MOST_TERMS);
    no_terms(&terms.places[..count])
}

// Whether a query has a range, and it is none of true levels.
fn no_range(levels: Levels) -> bool
    ensures { result ≡ no_range levels }
{
    match levels {
        Levels::Any | Levels::TrueOnly => false,
        Levels::Range(low, high) => high < low || !true_level(low) || !true_level(high),
    }
}

fn check_counts(required: usize, forbidden: usize) -> Result<(), Refusal>
    ensures { refused result ≡ count_rows required forbidden }
{
    if Query::MOST_TERMS < required || Query::MOST_TERMS < forbidden {
        return Err(Refusal::TooManyTerms);
    }
    Ok(())
}

fn check_terms(required: Terms, forbidden: Terms) -> Result<(), Refusal>
    ensures { refused result ≡ term_rows (used required) (used forbidden) }
{
    if any_no_term(required) || any_no_term(forbidden) {
        return Err(Refusal::NoTerm);
    }
    Ok(())
}

fn check_levels(levels: Levels) -> Result<(), Refusal>
    ensures { refused result ≡ level_rows levels }
{
    if no_range(levels) {
        return Err(Refusal::NoLevelRange);
    }
    Ok(())
}

fn check_start(devices: usize, start: u32) -> Result<(), Refusal>
    ensures { refused result ≡ start_rows devices start }
{
    if start == 0 || devices < (start - 1) as usize {
        return Err(Refusal::NoStart);
    }
    Ok(())
}

fn check_room(devices: usize, room: usize) -> Result<(), Refusal>
    ensures { refused result ≡ room_rows devices room }
{
    if room < devices {
        return Err(Refusal::ListingTooShort);
    }
    Ok(())
}

// The refusal with the lowest number, of 10 to 13, that applies to a query over a plant of `devices` devices: of those that do not hang on where
// its answer goes.
pub fn check_common(query: Query, devices: usize) -> Result<(), Refusal>
    ensures { refused result ≡ common_refusal devices query }
{
    check_counts(query.required.count, query.forbidden.count)?;
    check_terms(query.required, query.forbidden)?;
    check_levels(query.levels)?;
    check_start(devices, query.start)
}

// The refusal with the lowest number, of 10 to 14, that applies to a search for a query over a plant of `devices` devices, with room for `room`
// in the answer list.
pub fn check(query: Query, devices: usize, room: usize) -> Result<(), Refusal>
    ensures { refused result ≡ query_refusal devices room query }
{
    check_common(query, devices)?;
    check_room(devices, room)
}
