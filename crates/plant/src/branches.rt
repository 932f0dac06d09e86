// The branches of device tables that are accepted.
ghost use Rattle.std.specs.Prelude.{◌≡◌};
ghost use Rattle.laws.specs.Tables.{entry};
ghost use Rattle.laws.specs.inner.Entries.{IsEntry};
ghost use Rattle.plant.specs.inner.Forest.{Forest};

// The last device of each device's branch, in tables that are accepted: each branch holds its device, ends in the plant, and holds the branches of
// its devices.
#[derive(Clone, Copy, Debug, PartialEq, Eq)]
pub struct Branches<'a> {
    pub last: &'a [u16],
    pub ghost forest: { Forest last.now },
}

impl<'a> Branches<'a> {
    // The last device of d's branch.
    pub fn end_of(self, d: usize) -> usize
        requires { IsEntry self.last.now d }
        ensures { result ≡ entry self.entry.last.now d }
    {
        usize::from(self.last[d - 1])
    }
}
