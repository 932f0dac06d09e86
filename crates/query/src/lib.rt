// The query, the level codes that it wants, and its refusals.
#![tactic(auto)]

ghost use Rattle.std.specs.Prelude.{◌≡◌};
ghost use Rattle.query.specs.Query.{empty, with_required, with_forbidden, with_levels, with_start, with_budget};

use terms::{none, with_term};

mod codes;
mod refusals;
mod terms;

pub use codes::wants;
pub use refusals::{check, check_common};
pub use terms::{Terms, terms_of};

// Which level codes a query wants: any, true levels only, or a range of them (document 01: its window). A code of 0 or 255 is no true level.
#[derive(Debug, Clone, Copy, PartialEq, Eq)]
pub enum Levels {
    Any,
    TrueOnly,
    Range(u32, u32),
}

// A query (document 01: an ask).
#[derive(Debug, Clone, Copy, PartialEq, Eq)]
pub struct Query {
    pub required: Terms,
    pub forbidden: Terms,
    pub levels: Levels,
    pub start: u32,
    pub budget: u32,
}

impl Query {
    pub const MOST_TERMS: usize = 8;

    // True levels are LOWEST_LEVEL to HIGHEST_LEVEL.
    pub const LOWEST_LEVEL: u32 = 1;

    pub const HIGHEST_LEVEL: u32 = 254;

    pub const HIGHEST_TERM: u32 = 65535;

    pub const LARGEST_BUDGET: u32 = 4294967295;

    // No terms, true levels only, start 1, the largest budget.
    pub fn empty() -> Query
        ensures { result ≡ empty }
    {
        Query {
            required: none(),
            forbidden: none(),
            levels: Levels::TrueOnly,
            start: 1,
            budget: Query::LARGEST_BUDGET,
        }
    }

    // The query with one required term more; where it has eight, it stays as it is.
    pub fn with_required(mut self, term: u32) -> Query
        ensures { result ≡ with_required self term }
    {
        self.required = with_term(self.required, term);
        self
    }

    // The query with one forbidden term more; where it has eight, it stays as it is.
    pub fn with_forbidden(mut self, term: u32) -> Query
        ensures { result ≡ with_forbidden self term }
    {
        self.forbidden = with_term(self.forbidden, term);
        self
    }

    pub fn with_levels(mut self, levels: Levels) -> Query
        ensures { result ≡ with_levels self levels }
    {
        self.levels = levels;
        self
    }

    pub fn with_start(mut self, start: u32) -> Query
        ensures { result ≡ with_start self start }
    {
        self.start = start;
        self
    }

    pub fn with_budget(mut self, budget: u32) -> Query
        ensures { result ≡ with_budget self budget }
    {
        self.budget = budget;
        self
    }
}
