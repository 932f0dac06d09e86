// The repair of an index whose lists have several postings for a device, or redundant ones.
#![tactic(auto)]

mod checks;
mod compact;
mod count;

ghost use Rattle.plant.specs.Tables.{plant_of};
ghost use Rattle.index.specs.Index.{index};
ghost use Rattle.repair.specs.Promises.{RepairGives};

use crate::checks::judge;
use crate::compact::compact;
use index::{IndexTables, clear};
use plant::DeviceTables;
use refusal::Refusal;

// How many postings were dropped, and how many are left.
#[derive(Clone, Copy, Debug, PartialEq, Eq)]
pub struct Repaired {
    pub dropped: usize,
    pub left: usize,
}

// Keeps of each list one posting for a device, and none that is redundant. What is dropped is reported, three entries a posting: its term, its
// device, and 1 where it was shared, else 0. Takes time in proportion to the tables, and no room of its own. A refused index and the report
// stay as they were.
// Kept: starts and postings one by one, here and in `compact` (`plant_search_repair` lends them to be written, and the terms to be read).
pub fn repair(
    plant: DeviceTables,
    terms: &[u16],
    starts: &mut [u32],
    postings: &mut [u32],
    report: &mut [u32],
) -> Result<Repaired, Refusal>
    ensures { RepairGives
        (plant_of plant.entry)
        (index terms.now starts.old postings.old)
        report.old starts.new postings.new report.new result }
{
    let lent = IndexTables {
        terms,
        starts,
        postings,
    };
    let (branches, left) = judge(plant, lent, report.len())?;
    let dropped = postings.len() - left;
    if 0 < dropped {
        compact(branches, terms, starts, postings, report);
        clear(postings, left);
    }
    Ok(Repaired { dropped, left })
}
