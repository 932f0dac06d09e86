// Which level codes are true levels, and which a query wants.
ghost use Rattle.std.specs.Prelude.{◌≡◌};
ghost use Rattle.plant.specs.Levels.{true_level};
ghost use Rattle.query.specs.Query.{wants};

use crate::{Levels, Query};

// Whether a level code is a true level.
pub fn true_level(code: u32) -> bool
    ensures { result ≡ true_level code }
{
    (Query::LOWEST_LEVEL..=Query::HIGHEST_LEVEL).contains(&code)
}

// Whether a level code is one that a query wants.
pub fn wants(levels: Levels, code: u32) -> bool
    ensures { result ≡ wants levels code }
{
    match levels {
        Levels::Any => true,
        Levels::TrueOnly => true_level(code),
        Levels::Range(low, high) => (low..=high).contains(&code) && true_level(code),
    }
}
