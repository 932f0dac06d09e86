// What the evaluators read in a query.
use query::{Levels, Terms};

// The terms of one kind that a query names, of which it has at most eight.
pub fn used(terms: &Terms) -> &[u32] {
    terms.places.get(..terms.count).unwrap_or(&terms.places)
}

// Whether a query wants a level code. 0 and 255 are no true levels.
pub fn wants(levels: Levels, code: u32) -> bool {
    let is_true = code != 0 && code != 255;
    match levels {
        Levels::Any => true,
        Levels::TrueOnly => is_true,
        Levels::Range(low, high) => is_true && low <= code && code <= high,
    }
}
