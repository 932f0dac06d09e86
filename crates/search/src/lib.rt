// The search: the devices that match a query, by document 01's cursor steps.
#![tactic(auto)]

ghost use Rattle.plant.specs.Tables.{plant_of};
ghost use Rattle.two_indexes.specs.Tables.{indexes_of};
ghost use Rattle.search.specs.Promises.{Searched};

use lists::answered;
use plant::DeviceTables;
use query::Query;
use refusal::Refusal;
use two_indexes::TwoIndexes;

mod cursor;
mod lists;
mod run;

// What a search answers: the number of devices listed, the position, the postings that the moves passed over without landing, and the moves.
#[derive(Clone, Copy, Debug, PartialEq, Eq)]
pub struct Answer {
    pub count: u32,
    pub position: u32,
    pub passed: u32,
    pub moves: u32,
}

// The devices that match a query, from its start on, within its budget of moves. One call checks the tables, the two indexes and the query, in
// that order. The listing goes to the front of `out`, the other entries of which are kept; a refusal keeps all.
pub fn search(
    plant: DeviceTables,
    indexes: TwoIndexes,
    query: Query,
    out: &mut [u16],
) -> Result<Answer, Refusal>
    ensures { Searched (plant_of plant.entry) (indexes_of indexes.entry) query out.old out.new result }
{
    two_indexes::check(plant, indexes)?;
    query::check(query, plant.last.len(), out.len())?;
    Ok(answered(plant, indexes, query, out))
}
