// Moves what is kept of the lists down to the front of the postings, and reports what is dropped.
ghost use Rattle.std.specs.Prelude.{◌≡◌, false, ◌+◌, ◌*◌, ◌≤◌, ◌<◌, length};
ghost use Rattle.std.proofs.Math.Seq.{slice};
ghost use Rattle.index.specs.Index.{index};
ghost use Rattle.repair.specs.Kept.{dropped};
ghost use Rattle.repair.specs.inner.Lists.{Fit, Repairable};
ghost use Rattle.repair.specs.inner.Compaction.{dropped_of, stays, goes, told, Put, Compacting, Compacted};

use crate::count::further;
use index::{device_of, start_at};
use plant::Branches;

// The index after the postings that are kept, and the one after what is reported.
#[derive(Clone, Copy, Debug, PartialEq, Eq)]
pub struct Filled {
    pub postings: usize,
    pub report: usize,
}

// Of the posting kept last and the next one, which some posting before it reaches: the one that stays, and the one that goes. The next stays where
// the last is private and of its device. Private postings of a device are alike, so it does not matter which of them goes.
fn parted(held: u32, posting: u32) -> (u32, u32)
    ensures stays { result.0 ≡ stays held posting }
    ensures goes { result.1 ≡ goes held posting }
{
    if held == posting / 2 * 2 {
        (posting, held)
    } else {
        (held, posting)
    }
}

// Puts a posting after those kept, where it is fresh: none before it reaches its device. Else it or the one kept last goes to the report.
fn put(
    postings: &mut [u32],
    report: &mut [u32],
    mut filled: Filled,
    fresh: bool,
    term: u32,
    posting: u32,
) -> Filled
    requires postings_in_bounds { filled.postings < length postings.old }
    requires one_is_kept { fresh ≡ false → 1 ≤ filled.postings }
    requires report_in_bounds { fresh ≡ false → filled.report + 3 ≤ length report.old }
    ensures { Put postings.old report.old filled fresh term posting postings.new report.new result }
{
    let place = filled.postings;
    let line = filled.report;
    if fresh {
        postings[place] = posting;
        filled.postings += 1;
    } else {
        let (stays, goes) = parted(postings[place - 1], posting);
        postings[place - 1] = stays;
        // Three writes: `copy_from_slice` of the three takes more instructions.
        report[line] = term;
        report[line + 1] = goes / 2;
        report[line + 2] = goes % 2;
        filled.report += 3;
    }
    filled
}

// Compacts the list from `start` up to `end`.
fn compact_list(
    branches: Branches,
    term: u32,
    start: usize,
    end: usize,
    from: Filled,
    postings: &mut [u32],
    report: &mut [u32],
) -> Filled
    requires in_order { (from.postings ≤ start) × (start ≤ end) × (end ≤ length postings.old) }
    requires fit { Fit (length branches.last.now) (slice start end postings.old) }
    requires report_in_bounds { from.report + 3 * length (dropped branches.last.now (slice start end postings.old)) ≤ length report.old }
    ensures { Compacting branches.entry.last.now postings.old report.old start end term
        from.postings from.report end postings.new report.new result }
{
    let mut filled = from;
    let mut reached = 0;
    for i in start..end {
        let posting = postings[i];
        let fresh = reached < device_of(posting);
        filled = put(postings, report, filled, fresh, term, posting);
        reached = further(branches, reached, posting);
    }
    filled
}

// Compacts all lists, one after another, and writes where each starts.
pub fn compact(
    branches: Branches,
    terms: &[u16],
    starts: &mut [u32],
    postings: &mut [u32],
    report: &mut [u32],
) -> Filled
    requires repairable { Repairable branches.last.now (index terms.now starts.old postings.old) }
    requires report_in_bounds { 3 * length (dropped_of branches.last.now (index terms.now starts.old postings.old) (length terms.now)) ≤ length report.old }
    ensures { Compacted branches.entry.last.now (index terms.now starts.old postings.old)
        report.old (length terms.now) starts.new postings.new report.new result }
{
    let mut filled = Filled {
        postings: 0,
        report: 0,
    };
    let mut start = 0;
    for (k, &term) in terms.iter().enumerate() {
        let end = start_at(starts, k + 1, postings.len());
        starts[k] = filled.postings as u32;
        filled = compact_list(
            branches,
            u32::from(term),
            start,
            end,
            filled,
            postings,
            report,
        );
        start = end;
    }
    filled
}
