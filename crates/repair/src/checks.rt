// The refusals of a repair.
ghost use Rattle.std.specs.Prelude.{◌≡◌, cond, length};
ghost use Rattle.laws.specs.Search.{any};
ghost use Rattle.refusal.specs.Numbers.{number};
ghost use Rattle.plant.specs.Tables.{plant_of};
ghost use Rattle.index.specs.Postings.{device, outside};
ghost use Rattle.index.specs.Tables.{index_of};
ghost use Rattle.repair.specs.inner.Counting.{Judges};

use crate::count::counted_of;
use index::IndexTables;
use index_check::{outline_row, outside_in};
use plant::{Branches, DeviceTables};
use refusal::{IndexRow, Refusal};

// Which row a posting comes to that is out of range or whose device falls: the first where some is out of range.
fn astray_row(most: usize, postings: &[u32]) -> Refusal
    ensures { number result ≡ cond (any (length postings.now) (outside most device postings.now)) 8 41 }
{
    if outside_in(most, postings) {
        Refusal::Index(IndexRow::MisplacedPosting)
    } else {
        Refusal::FallingDevices
    }
}

// The branches and how many postings are left, or the refusal with the lowest number that applies to device tables, an index and a report of
// `room` entries. Of an index that is not refused each posting is read once.
pub fn judge<'a>(
    plant: DeviceTables<'a>,
    index: IndexTables,
    room: usize,
) -> Result<(Branches<'a>, usize), Refusal>
    ensures { Judges (plant_of plant.entry) (index_of index.entry) room result }
{
    let branches = plant::check(plant)?;
    outline_row(index).map_err(Refusal::Index)?;
    let Some(left) = counted_of(branches, index) else {
        return Err(astray_row(plant.last.len(), index.postings));
    };
    if room / 3 < index.postings.len() - left {
        return Err(Refusal::ReportTooShort);
    }
    Ok((branches, left))
}
