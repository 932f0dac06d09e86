// The tightening of an index: each list becomes the smallest with which the same devices carry its term.
#![tactic(auto)]

mod list;
mod lists;

ghost use Rattle.plant.specs.Tables.{plant_of};
ghost use Rattle.index.specs.Index.{index};
ghost use Rattle.tighten.specs.Promises.{TightenGives};

use crate::lists::tighten_lists;
use index::{IndexTables, clear};
use index_check::check;
use plant::DeviceTables;
use refusal::Refusal;

// Tightens each list in its own room, and gives how many postings are left. Takes time in proportion to the tables. Entries that come free at the
// end of the postings become 0. A refused index stays as it was.
// Kept: starts and postings one by one, here and in `tighten_lists` (`plant_search_tighten` lends them to be written, and the terms to be read).
pub fn tighten(
    plant: DeviceTables,
    terms: &[u16],
    starts: &mut [u32],
    postings: &mut [u32],
) -> Result<usize, Refusal>
    ensures { TightenGives
        (plant_of plant.entry)
        (index terms.now starts.old postings.old)
        starts.new postings.new result }
{
    let lent = IndexTables {
        terms,
        starts,
        postings,
    };
    let branches = check(plant, lent)?;
    let left = tighten_lists(branches, terms, starts, postings);
    clear(postings, left);
    Ok(left)
}
