// The list of a term in two indexes.
ghost use Rattle.index.specs.Index.{index};
ghost use Rattle.two_indexes.specs.Indexes.{indexes};
ghost use Rattle.two_indexes.specs.Tables.{indexes_of};
ghost use Rattle.two_indexes.specs.Lookup.{Looked};

use crate::TwoIndexes;
use index::{list_at, number_of};

impl<'a> TwoIndexes<'a> {
    // The list of `term`: a part of the first postings for a term below 32,768, else of the second. Where its index lacks the term, an empty part of
    // the second.
    pub fn list_of(self, term: u32) -> &'a [u32]
        ensures { Looked (indexes_of self.entry) term result.now }
    {
        let TwoIndexes { first, second } = self;
        list_of(
            first.terms,
            first.starts,
            first.postings,
            second.terms,
            second.starts,
            second.postings,
            term,
        )
    }
}

// The same of tables one by one, of which the postings alone have to live as long as the list.
pub fn list_of<'a>(
    terms: &[u16],
    starts: &[u32],
    postings: &'a [u32],
    second_terms: &[u16],
    second_starts: &[u32],
    second_postings: &'a [u32],
    term: u32,
) -> &'a [u32]
    ensures { Looked
        (indexes
        (index terms.now starts.now postings.now)
        (index second_terms.now second_starts.now second_postings.now))
        term result.now }
{
    if 32_768 <= term {
        return index::list_of(second_terms, second_starts, second_postings, term);
    }
    match number_of(terms, term) {
        None => &second_postings[..0],
        Some(number) => list_at(starts, postings, number),
    }
}
