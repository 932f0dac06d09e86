// The terms of one kind that a query names.
ghost use Rattle.std.specs.Prelude.{◌≡◌};
ghost use Rattle.query.specs.Query.{none, with_term, terms_of};

use crate::Query;

// Eight places, of which the first `count` are used.
// Kept: a count beside an array (no heap; row 10 of `common_refusal` is about a count above eight, as the edit `ninth_not_counted` shows).
#[derive(Debug, Clone, Copy, PartialEq, Eq)]
pub struct Terms {
    pub places: [u32; 8],
    pub count: usize,
}

pub fn none() -> Terms
    ensures { result ≡ none }
{
    Terms {
        places: [0; 8],
        count: 0,
    }
}

// With one term more, where there is a place left.
pub fn with_term(mut terms: Terms, term: u32) -> Terms
    ensures { result ≡ with_term terms term }
{
    let i = terms.count;
    if i < Query::MOST_TERMS {
        terms.places[i] = term;
        terms.count = i + 1;
    }
    terms
}

// The terms of a list. A ninth is counted and not kept: a query of nine is refused.
pub fn terms_of(list: &[u32]) -> Terms
    ensures { result ≡ terms_of list.now }
{
    let kept = list.len().min(Query::MOST_TERMS);
    let mut places = [0; 8];
    places[..kept].copy_from_slice(&list[..kept]);
    Terms {
        places,
        count: list.len(),
    }
}
