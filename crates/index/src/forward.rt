// The forward step on a list of postings: over any list by a scan, and over a sorted one by doubling and halving.
ghost use Rattle.std.specs.Prelude.{◌≡◌, ◌≤◌, ◌<◌, length};
ghost use Rattle.index.specs.Postings.{device};
ghost use Rattle.index.specs.Forward.{landing, step, Sought};
ghost use Rattle.index.specs.Around.{Around};
ghost use Rattle.index.specs.inner.Parts.{Part};

use std::ops::Range;

// Where a forward step lands, and how many postings it passed over without landing.
#[derive(Clone, Copy, Debug, PartialEq, Eq)]
pub struct Step {
    pub at: usize,
    pub passed: usize,
}

// The step from index `from` to `at`. A step that stays, or begins past the end, passes none.
fn step_to(from: usize, at: usize) -> Step
    ensures { result ≡ landing from at }
{
    let passed = if at <= from { 0 } else { at - from - 1 };
    Step { at, passed }
}

// The step from `position` to the first posting whose device is at least `target`, or to the length. The list need not be sorted.
pub fn first_at_least(list: &[u32], position: usize, target: u32) -> Step
    ensures { result ≡ step list.now position target }
{
    let from = position.min(list.len());
    let before = list[from..]
        .iter()
        .take_while(|&&posting| posting / 2 < target)
        .count();
    step_to(position, from + before)
}

// The same for a list that is sorted from `position` on, in time that grows with the logarithm of the postings passed.
pub fn seek(list: &[u32], position: usize, target: u32) -> Step
    ensures { Sought list.now position target result }
{
    let Some(&posting) = list.get(position) else {
        return step_to(position, list.len());
    };
    if target <= posting / 2 {
        return step_to(position, position);
    }
    let around = gallop(list, position + 1, target);
    step_to(position, bisect(list, around, target))
}

// Doubling steps from `from`, until one reaches a posting that is not before device `target`.
fn gallop(list: &[u32], from: usize, target: u32) -> Range<usize>
    requires { from ≤ length list.now }
    ensures { Around device list.now from (length list.now) target result.start result.end }
{
    let mut low = from;
    let mut step = 1;
    while step <= list.len() - low {
        let probe = low + (step - 1);
        if target <= list[probe] / 2 {
            return low..probe;
        }
        low = probe + 1;
        step *= 2;
    }
    low..list.len()
}

// Halves a part of the list down to a single index.
// Kept: `partition_point` promises nothing of a list that isn't sorted, as the clause `any` of `Sought` does.
fn bisect(list: &[u32], part: Range<usize>, target: u32) -> usize
    requires { Part list.now part.start part.end }
    ensures { Around device list.now part.start part.end target result result }
{
    let mut low = part.start;
    let mut high = part.end;
    while low < high {
        let mid = low + (high - low) / 2;
        if list[mid] / 2 < target {
            low = mid + 1;
        } else {
            high = mid;
        }
    }
    low
}
