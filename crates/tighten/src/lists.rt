// The tightening of all lists of an index.
ghost use Rattle.std.specs.Prelude.{length};
ghost use Rattle.index.specs.Index.{index};
ghost use Rattle.index.specs.inner.Laying.{ListsLaid};
ghost use Rattle.tighten.specs.inner.Branches.{tight_of, SoundLists};

use crate::list::tighten_list;
use index::start_at;
use plant::Branches;

// Tightens every list, and puts them one after another at the front of the postings. Returns where they end.
pub fn tighten_lists(
    branches: Branches,
    terms: &[u16],
    starts: &mut [u32],
    postings: &mut [u32],
) -> usize
    requires sound_lists { SoundLists branches.last.now (index terms.now starts.old postings.old) }
    ensures { ListsLaid (index terms.now starts.old postings.old)
        (tight_of branches.entry.last.now (index terms.now starts.old postings.old))
        (length terms.now) starts.new postings.new result }
{
    let mut made = 0;
    let mut start = 0;
    for k in 0..terms.len() {
        let end = start_at(starts, k + 1, postings.len());
        starts[k] = made as u32;
        made = tighten_list(branches, postings, start, end, made);
        start = end;
    }
    made
}
