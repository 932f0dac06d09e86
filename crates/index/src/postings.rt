// Reads of a posting.
ghost use Rattle.std.specs.Prelude.{◌≡◌, cond};
ghost use Rattle.laws.specs.inner.Entries.{IsEntry};
ghost use Rattle.index.specs.Postings.{device, shared, reach};

use plant::Branches;

// The device of a posting.
pub fn device_of(posting: u32) -> usize
    ensures { result ≡ device posting }
{
    (posting / 2) as usize
}

// The last device that a posting carries its term to, where the branch of its device ends at `end`.
pub fn reach_by(end: usize, posting: u32) -> usize
    ensures { result ≡ cond (shared posting) end (device posting) }
{
    if posting % 2 == 1 {
        end
    } else {
        device_of(posting)
    }
}

// The last device that a posting carries its term to. The table is read before it is known whether the posting is shared: the choice is then no
// branch to be guessed.
pub fn reach_of(branches: Branches, posting: u32) -> usize
    requires { IsEntry branches.last.now (device posting) }
    ensures { result ≡ reach branches.entry.last.now posting }
{
    let end = branches.end_of(device_of(posting));
    reach_by(end, posting)
}
