// One cursor: an index into a sorted list of postings.
ghost use Rattle.std.specs.Prelude.{◌≡◌, ◌+◌, ◌≤◌, length};
ghost use Rattle.laws.specs.Limits.{most_devices, largest_number};
ghost use Rattle.laws.specs.Tables.{entry};
ghost use Rattle.laws.specs.inner.Entries.{IsEntry};
ghost use Rattle.index.specs.Postings.{device};
ghost use Rattle.search.specs.inner.Cursors.{Tables, Cursor, Brings};
ghost use Rattle.steps.proofs.ByIndex.{target};

use index::{device_of, reach_by, seek};
use plant::DeviceTables;

// The entry of device d.
fn entry_of(table: &[u16], d: usize) -> usize
    requires { IsEntry table.now d }
    ensures { (result ≡ entry table.now d) × (result ≤ most_devices) }
{
    usize::from(table[d - 1])
}

// The device that a move from posting q towards position p goes to, which is above its own; one past its own is the next posting's or before it.
fn target(plant: DeviceTables, p: usize, q: u32) -> usize
    requires { IsEntry plant.last.now (device q) × IsEntry plant.root.now p }
    ensures { (result ≡ target plant.entry.last.now plant.entry.root.now p q) × (result ≤ largest_number) }
{
    let d = device_of(q);
    let top = entry_of(plant.root, p);
    if d < top {
        return top;
    }
    let end = entry_of(plant.last, d);
    if end < p { end + 1 } else { d + 1 }
}

// The moves made so far, and how many postings they passed over.
#[derive(Clone, Copy)]
pub struct Counts {
    pub moves: u32,
    pub passed: u32,
}

// A cursor that was brought to a position: whether its posting carries there, and the last position up to which that stays so without a move.
#[derive(Clone, Copy)]
pub struct Rest {
    pub carries: bool,
    pub to: usize,
}

// Brings the cursor at index `at` of a list to position p, or answers None where the next move would exceed the budget.
pub fn bring(
    plant: DeviceTables,
    list: &[u32],
    at: &mut usize,
    p: usize,
    budget: u32,
    counts: &mut Counts,
) -> Option<Rest>
    requires { Tables plant.last.now plant.root.now × Cursor plant.last.now list.now at.old × IsEntry plant.last.now p
        × (counts.old.moves ≤ budget) × (counts.old.passed + length list.now ≤ largest_number) }
    ensures { Brings plant.entry.last.now plant.entry.root.now list.now p budget at.old at.new counts.old counts.new result }
{
    // It jumps to where `seek` lands.
    while let Some(&q) = list.get(*at) {
        let d = device_of(q);
        if p < d {
            return Some(Rest {
                carries: false,
                to: d - 1,
            });
        }
        // The end is read before it is known whether the posting is shared: the choice is then no branch to be guessed.
        let to = reach_by(entry_of(plant.last, d), q);
        if p <= to {
            return Some(Rest { carries: true, to });
        }
        if budget <= counts.moves {
            return None;
        }
        let step = seek(list, *at, target(plant, p, q) as u32);
        counts.moves += 1;
        counts.passed += step.passed as u32;
        *at = step.at;
    }
    let to = plant.last.len();
    Some(Rest { carries: false, to })
}
