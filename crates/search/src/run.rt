// The rounds of a run: one round, the devices that it lists, all rounds.
ghost use Rattle.std.specs.Prelude.{◌≡◌, ◌+◌, ◌≤◌, ◌<◌, map, length};
ghost use Rattle.laws.specs.Limits.{most_devices};
ghost use Rattle.laws.specs.Tables.{entry};
ghost use Rattle.laws.specs.inner.Entries.{IsEntry};
ghost use Rattle.steps.specs.Steps.{run};
ghost use Rattle.query.specs.Query.{wants};
ghost use Rattle.search.specs.inner.Cursors.{most_passed, Tables, Valid, Turns, Lists, Writes, RunGives, begin};

use crate::Answer;
use crate::cursor::{Counts, bring};
use plant::DeviceTables;
use query::{Levels, Query, wants};

// How a round at a position ends.
#[derive(Clone, Copy)]
pub enum Round {
    // Every cursor accepts each position from there to this one.
    Accepts(usize),
    // The position is set to this one, and the round begins again.
    Again(usize),
}

// One round at position p, or None where the next move would exceed the budget. Cursor k is at index positions[k] of lists[k]; the first `required`
// of them are of required terms, the others of forbidden ones.
fn pass(
    plant: DeviceTables,
    lists: &[&[u32]],
    required: usize,
    positions: &mut [usize; 16],
    p: usize,
    budget: u32,
    counts: &mut Counts,
) -> Option<Round>
    requires { Tables plant.last.now plant.root.now × IsEntry plant.last.now p
        × Valid plant.last.now (map (λ x. x.now) lists.now) positions.old × (counts.old.moves ≤ budget) × (counts.old.passed ≤ most_passed) }
    ensures { Turns plant.entry.last.now plant.entry.root.now (map (λ x. x.now) lists.now) required p budget positions.old positions.new counts.old counts.new result }
{
    let mut to = plant.last.len();
    for (i, &list) in lists.iter().enumerate() {
        let rest = bring(plant, list, &mut positions[i], p, budget, counts)?;
        let asked = i < required;
        if rest.carries != asked {
            return Some(Round::Again(rest.to + 1));
        }
        to = to.min(rest.to);
    }
    Some(Round::Accepts(to))
}

// Writes the devices from `from` to `to` whose level codes a query wants, after the first `count` entries. Returns how many entries are written.
fn list(
    level: &[u8],
    levels: Levels,
    from: usize,
    to: usize,
    out: &mut [u16],
    count: usize,
) -> usize
    requires { (count < from) × (from ≤ to) × (to ≤ length level.now) × (length level.now ≤ length out.old) × (length level.now ≤ most_devices) }
    ensures { Writes (λ d. wants levels (entry level.now d)) from to out.old out.new count result }
{
    let mut n = count;
    for d in from..=to {
        if wants(levels, u32::from(level[d - 1])) {
            out[n] = d as u16;
            n += 1;
        }
    }
    n
}

// The run of a query over its lists, from its start on, each cursor on the first posting of its list. The first `required` lists are those of
// required terms.
pub fn run(
    plant: DeviceTables,
    lists: &[&[u32]],
    required: usize,
    query: Query,
    out: &mut [u16],
) -> Answer
    requires tables { Tables plant.last.now plant.root.now × (length plant.level.now ≡ length plant.last.now)
        × (length plant.last.now ≤ length out.old) × (1 ≤ query.start) × (query.start ≤ length plant.last.now + 1) }
    requires lists { Lists plant.last.now (map (λ x. x.now) lists.now) }
    ensures { let end = length plant.entry.last.now + 1 in RunGives
        (run plant.entry.last.now plant.entry.root.now end (λ d. wants query.levels (entry plant.entry.level.now d)) end query.budget query.start
        (begin required (map (λ x. x.now) lists.now)))
        out.old out.new result }
{
    let end = plant.last.len() + 1;
    let mut positions = [0; 16];
    let mut counts = Counts {
        moves: 0,
        passed: 0,
    };
    let mut position = query.start as usize;
    let mut count = 0;
    // A round jumps past all that it settles.
    while position < end {
        match pass(
            plant,
            lists,
            required,
            &mut positions,
            position,
            query.budget,
            &mut counts,
        ) {
            Some(Round::Accepts(to)) => {
                count = list(plant.level, query.levels, position, to, out, count);
                position = to + 1;
            }
            Some(Round::Again(next)) => position = next,
            None => break,
        }
    }
    Answer {
        count: count as u32,
        position: position as u32,
        passed: counts.passed,
        moves: counts.moves,
    }
}
