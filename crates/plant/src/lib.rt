// Device tables that a caller lends, and their check.
#![tactic(auto)]

ghost use Rattle.std.specs.Prelude.{IfOk, ◌≡◌, false, ◌<◌, length};
ghost use Rattle.laws.specs.Rows.{pick};
ghost use Rattle.laws.specs.Search.{any};
ghost use Rattle.laws.specs.Tables.{entry};
ghost use Rattle.laws.specs.inner.Entries.{IsEntry};
ghost use Rattle.laws.proofs.Search.{None};
ghost use Rattle.plant.specs.inner.Branches.{faulty};
ghost use Rattle.refusal.specs.Numbers.{number, refused};
ghost use Rattle.plant.specs.Tables.{plant_of};
ghost use Rattle.plant.specs.Plant.{out_of_range, overlaps, wrong_root, plant_refusal};

use refusal::Refusal;

mod branches;

pub use branches::Branches;

// The device tables that a caller lends, with one entry for each device.
#[derive(Clone, Copy, Debug, PartialEq, Eq)]
pub struct DeviceTables<'a> {
    pub last: &'a [u16],
    pub root: &'a [u16],
    pub level: &'a [u8],
}

// The refusal with the lowest number that applies to the tables.
pub fn check<'a>(tables: DeviceTables<'a>) -> Result<Branches<'a>, Refusal>
    ensures refusal { refused result ≡ plant_refusal (plant_of tables.entry) }
    ensures branches { IfOk result (λ branches. branches.last.now ≡ tables.entry.last.now) }
{
    let DeviceTables { last, root, level } = tables;
    if root.len() != last.len() || level.len() != last.len() || 65_535 < last.len() {
        return Err(Refusal::UnevenTables);
    }
    if any_fault(last) {
        return Err(fault(last));
    }
    if any_wrong_root(last, root) {
        return Err(Refusal::WrongRoot);
    }
    Ok(Branches { last })
}

// The entry of device d in a table.
fn entry_of(table: &[u16], d: usize) -> usize
    requires { IsEntry table.now d }
    ensures { result ≡ entry table.now d }
{
    usize::from(table[d - 1])
}

// Whether the branch of d ends before d or past the last device.
fn is_out_of_range(last: &[u16], d: usize) -> bool
    requires { IsEntry last.now d }
    ensures { result ≡ out_of_range last.now d }
{
    let end = entry_of(last, d);
    end < d || last.len() < end
}

// Whether some branch is out of range.
fn any_out_of_range(last: &[u16]) -> bool
    ensures { result ≡ any (length last.now) (out_of_range last.now) }
{
    (0..last.len()).any(|i| is_out_of_range(last, i + 1))
}

// Whether the branch of d is out of range or overlaps another, where no later branch is or does. Jumps from one child of d to the next.
fn faulty_at(last: &[u16], d: usize) -> bool
    requires entry { IsEntry last.now d }
    requires sound_after { None (faulty last.now) d (length last.now) }
    ensures { result ≡ faulty last.now d }
{
    if is_out_of_range(last, d) {
        return true;
    }
    let end = entry_of(last, d);
    let mut child = d + 1;
    while child <= end {
        let child_end = entry_of(last, child);
        if end < child_end {
            return true;
        }
        child = child_end + 1;
    }
    false
}

// Whether a branch is out of range or overlaps another: the one pass over branches that are accepted. Goes from the last device down.
fn any_fault(last: &[u16]) -> bool
    ensures { result ≡ any (length last.now) (faulty last.now) }
{
    for d in (1..=last.len()).rev() {
        if faulty_at(last, d) {
            return true;
        }
    }
    false
}

// Which row a fault comes to.
fn fault(last: &[u16]) -> Refusal
    ensures { number result ≡ pick (any (length last.now) (out_of_range last.now)) 2 3 }
{
    if any_out_of_range(last) {
        return Refusal::LastOutOfRange;
    }
    Refusal::OverlappingBranches
}

// Whether a device's root is not the lowest device whose branch holds it. Keeps the root of the current tree.
fn any_wrong_root(last: &[u16], root: &[u16]) -> bool
    requires root_len { length root.now ≡ length last.now }
    requires in_range { any (length last.now) (out_of_range last.now) ≡ false }
    requires apart { any (length last.now) (overlaps last.now) ≡ false }
    ensures { result ≡ any (length last.now) (wrong_root last.now root.now) }
{
    let mut tree = 1;
    for (i, &listed) in root.iter().enumerate() {
        let d = i + 1;
        if entry_of(last, tree) < d {
            tree = d;
        }
        if usize::from(listed) != tree {
            return true;
        }
    }
    false
}
