// Two indexes: the first for terms below 32,768, the second for terms from there up. Their check, and the list of a term in them.
#![tactic(auto)]

mod lookup;
mod refusals;

use index::IndexTables;
pub use lookup::list_of;
pub use refusals::check;

// The tables of two indexes that a caller lends.
#[derive(Clone, Copy)]
pub struct TwoIndexes<'a> {
    pub first: IndexTables<'a>,
    pub second: IndexTables<'a>,
}
