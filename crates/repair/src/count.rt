// How many postings a repair keeps: as many as there are postings whose device none before them in their list reaches.
ghost use Rattle.std.specs.Prelude.{◌≡◌, max};
ghost use Rattle.laws.specs.inner.Entries.{IsEntry};
ghost use Rattle.index.specs.Postings.{device, reach};
ghost use Rattle.index.specs.Tables.{index_of};
ghost use Rattle.index.specs.inner.Outlined.{Outlined};
ghost use Rattle.repair.specs.inner.Counting.{counted_in, counted_of};

use index::{IndexTables, device_of, reach_of};
use plant::Branches;

// How far the postings passed reach, with one more.
pub fn further(branches: Branches, reached: usize, posting: u32) -> usize
    requires { IsEntry branches.last.now (device posting) }
    ensures { result ≡ max reached (reach branches.entry.last.now posting) }
{
    reached.max(reach_of(branches, posting))
}

// How many postings of a list are kept, or None where one is astray: its device is out of range, or below that of the posting before it. The
// device before the first posting counts as 1.
fn counted_in(branches: Branches, list: &[u32]) -> Option<usize>
    ensures { result ≡ counted_in branches.entry.last.now list.now }
{
    let mut before = 1;
    let mut reached = 0;
    let mut kept = 0;
    for &posting in list {
        let device = device_of(posting);
        if device < before || branches.last.len() < device {
            return None;
        }
        kept += usize::from(reached < device);
        reached = further(branches, reached, posting);
        before = device;
    }
    Some(kept)
}

// The same of all lists.
pub fn counted_of(branches: Branches, index: IndexTables) -> Option<usize>
    requires outlined { Outlined (index_of index) }
    ensures { result ≡ counted_of branches.entry.last.now (index_of index.entry) }
{
    let mut kept = 0;
    for k in 1..=index.terms.len() {
        kept += counted_in(branches, index.list_at(k))?;
    }
    Some(kept)
}
