// Whether a device has more than 32 tiers.
ghost use Rattle.std.specs.Prelude.{◌≤◌};
ghost use Rattle.written_text.specs.inner.Nested.{Nested, Depth};
ghost use Rattle.plant_writer.specs.inner.Deep.{Deep};

// Goes over devices a + 1 to e, which lie in `depth` branches, and over the devices inside each. A stretch has no more tiers than devices, so a short
// one is passed over. A call is at most 33 deep, and goes from branch to branch.
pub fn too_deep(last: &[u16], a: usize, e: usize, depth: usize) -> bool
    requires nested { Nested last.now a e }
    requires depth { Depth last.now a e depth }
    requires within_32 { depth ≤ 32 }
    ensures { Deep last.now a e result }
{
    if depth + (e - a) <= 32 {
        return false;
    }
    if depth == 32 {
        return true;
    }
    let mut i = a;
    while i < e {
        let end = usize::from(last[i]);
        if too_deep(last, i + 1, end, depth + 1) {
            return true;
        }
        i = end;
    }
    false
}
