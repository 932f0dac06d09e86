// The check of device tables and two indexes.
ghost use Rattle.std.specs.Prelude.{◌≡◌};
ghost use Rattle.refusal.specs.Numbers.{refused};
ghost use Rattle.plant.specs.Tables.{plant_of};
ghost use Rattle.two_indexes.specs.Indexes.{indexes_refusal};
ghost use Rattle.two_indexes.specs.Tables.{indexes_of};
ghost use Rattle.two_indexes.specs.inner.Rising.{AnySecond, AnyFirst, Misfiled};

use crate::TwoIndexes;
use plant::DeviceTables;
use refusal::Refusal;

// The refusal of the device tables and the first index, 1 to 9, or else of the second, 55 to 59, or else 15 for a term in the wrong index.
pub fn check(plant: DeviceTables, indexes: TwoIndexes) -> Result<(), Refusal>
    ensures { refused result ≡ indexes_refusal (plant_of plant.entry) (indexes_of indexes.entry) }
{
    let TwoIndexes { first, second } = indexes;
    index_check::check_both(plant, first, second)?;
    check_homes(first.terms, second.terms)
}

// Whether each term is in its index; for terms that rise.
fn check_homes(terms: &[u16], second_terms: &[u16]) -> Result<(), Refusal>
    ensures { Misfiled terms.now second_terms.now (refused result) }
{
    if any_second(terms) || any_first(second_terms) {
        return Err(Refusal::MisfiledTerm);
    }
    Ok(())
}

// Whether some of the terms is from 32,768 up: the last one, where they rise.
fn any_second(terms: &[u16]) -> bool
    ensures { AnySecond terms.now result }
{
    terms.last().is_some_and(|&term| 32_768 <= term)
}

// Whether some of the terms is below 32,768: the first one, where they rise.
fn any_first(terms: &[u16]) -> bool
    ensures { AnyFirst terms.now result }
{
    terms.first().is_some_and(|&term| term < 32_768)
}
