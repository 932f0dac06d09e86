// The tightening of one list, in one pass.
ghost use Rattle.std.specs.Prelude.{◌≡◌, cond, not, ◌||◌, ◌+◌, ◌*◌, ◌≤◌, ◌<◌, leb, eqb, length, get_or};
ghost use Rattle.std.proofs.Math.Seq.{slice};
ghost use Rattle.index.specs.Around.{Around};
ghost use Rattle.index.specs.Postings.{device};
ghost use Rattle.index.specs.inner.Laying.{ListPut};
ghost use Rattle.tighten.specs.Tight.{tight};
ghost use Rattle.tighten.specs.inner.Branches.{carried};
ghost use Rattle.tighten.specs.inner.List.{Apart, Known, Opens, Runs, Leads, Bounds};

use index::{device_of, reach_of};
use plant::Branches;

// A posting of the tight list, how many postings of the list it takes the place of, and up to where devices are known to carry the term.
#[derive(Clone, Copy, Debug, PartialEq, Eq)]
pub struct Lead {
    pub posting: u32,
    pub taken: usize,
    pub until: usize,
}

// Postings that follow one another: how many, and up to where each device carries the term.
#[derive(Clone, Copy, Debug, PartialEq, Eq)]
pub struct Run {
    pub count: usize,
    pub until: usize,
}

// A posting, private at a leaf.
fn at_leaf(posting: u32, leaf: bool) -> u32
    ensures { result ≡ cond leaf (device posting * 2) posting }
{
    if leaf { posting / 2 * 2 } else { posting }
}

// How far a posting of the device after d is from a private one of d. At a leaf, further than any: a number is chosen, so that the code has no branch
// here, which could not be guessed.
fn next_after(leaf: bool) -> u32
    ensures { (result ≡ cond leaf 262_144 2) × (result ≤ 262_144) }
{
    if leaf { 262_144 } else { 2 }
}

// Whether nothing is to be gathered at the first posting: it is shared, the next is not at the device after its own, or that is a leaf.
fn alone(list: &[u32], posting: u32, leaf: bool) -> bool
    requires { posting ≤ 131_071 }
    ensures { result ≡ not (eqb (device (get_or list.now 1 0) * 2) (posting + cond leaf 262_144 2)) }
{
    let next = list.get(1).copied().unwrap_or(0);
    next / 2 * 2 != posting + next_after(leaf)
}

// Whether a run that goes up to `until` ends there: the branch does, or the posting is not at the next device.
fn stops(until: usize, end: usize, posting: u32) -> bool
    requires { until ≤ 65_535 }
    ensures { result ≡ (leb end until || not (eqb (device posting) (until + 1))) }
{
    end <= until || device_of(posting) != until + 1
}

// The run from the first posting on, of device d alone, up to the end of d's branch.
fn run_of(branches: Branches, list: &[u32], d: usize, end: usize) -> Run
    requires apart { Apart branches.last.now list.now }
    requires opens { Opens branches.last.now list.now d end }
    ensures { Runs branches.entry.last.now list.now end result }
{
    let mut until = d;
    // By index: over the items it takes more instructions.
    for count in 1..list.len() {
        let posting = list[count];
        if stops(until, end, posting) {
            return Run { count, until };
        }
        until = reach_of(branches, posting);
    }
    Run {
        count: list.len(),
        until,
    }
}

// The first index after the first posting whose device lies beyond `end`, or the length.
fn past(list: &[u32], end: usize) -> usize
    requires { 0 < length list.now }
    ensures { Around device list.now 1 (length list.now) (end + 1) result result }
{
    let later = &list[1..];
    let beyond = later.iter().position(|&posting| end < device_of(posting));
    1 + beyond.unwrap_or(later.len())
}

// The first posting of the tight list, where something may be gathered: it is for a whole branch where the run, known or found, reaches the
// branch's end.
fn gather(branches: Branches, list: &[u32], d: usize, end: usize, until: usize) -> Lead
    requires apart { Apart branches.last.now list.now }
    requires opens { Opens branches.last.now list.now d end }
    requires known { Known branches.last.now list.now until }
    ensures { Leads branches.entry.last.now list.now result }
{
    let posting = list[0];
    if end <= until {
        return Lead {
            posting: posting + 1,
            taken: past(list, end),
            until,
        };
    }
    if d <= until {
        return Lead {
            posting,
            taken: 1,
            until,
        };
    }
    let Run { count, until } = run_of(branches, list, d, end);
    if until < end {
        return Lead {
            posting,
            taken: 1,
            until,
        };
    }
    Lead {
        posting: posting + 1,
        taken: count,
        until,
    }
}

// The first posting of the tight list of a list.
fn lead_of(branches: Branches, list: &[u32], until: usize) -> Lead
    requires apart { Apart branches.last.now list.now }
    requires list_not_empty { 0 < length list.now }
    requires known { Known branches.last.now list.now until }
    ensures { Leads branches.entry.last.now list.now result }
{
    let posting = list[0];
    let d = device_of(posting);
    let end = branches.end_of(d);
    let leaf = end == d;
    let made = at_leaf(posting, leaf);
    if alone(list, made, leaf) {
        return Lead {
            posting: made,
            taken: 1,
            until,
        };
    }
    gather(branches, list, d, end, until)
}

// Tightens the list from `start` to `end`, and puts it at `to`. Returns where it ends.
pub fn tighten_list(
    branches: Branches,
    postings: &mut [u32],
    start: usize,
    end: usize,
    to: usize,
) -> usize
    requires bounds { Bounds postings.old start end to }
    requires apart { Apart branches.last.now (slice start end postings.old) }
    ensures { ListPut postings.old end to
        (tight branches.entry.last.now (carried branches.entry.last.now (slice start end postings.old)))
        postings.new result }
{
    let mut until = 0;
    let mut place = to;
    // A lead may take the place of several postings: `at` jumps.
    let mut at = start;
    while at < end {
        let lead = lead_of(branches, &postings[at..end], until);
        postings[place] = lead.posting;
        place += 1;
        at += lead.taken;
        until = lead.until;
    }
    place
}
