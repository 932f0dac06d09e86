// The search beside the evaluators, for one plant, two indexes and a query.
use crate::plain_steps::walk_to_end;
use crate::refusals::refusal;
use crate::slow::listing;
use plant::DeviceTables;
use query::{Levels, Query};
use search::{Answer, search};
use std::alloc::{AllocError, Global};
use two_indexes::TwoIndexes;

// What the answer list holds everywhere at first.
const UNTOUCHED: u16 = 9999;

// A query over a plant and two indexes, with room for the answer.
#[derive(Clone, Copy)]
pub struct Case<'a> {
    pub plant: DeviceTables<'a>,
    pub indexes: TwoIndexes<'a>,
    pub query: Query,
    pub room: usize,
}

// What comes of a case: an answer, one that the choice of levels ends otherwise, a refusal, or a difference between search and evaluators.
#[derive(Clone, Copy, PartialEq, Eq)]
pub enum Verdict {
    Answered,
    MovedByLevels,
    Refused(u32),
    Differs,
}

// Where an answer ends: the position, the postings passed over and the moves.
fn end(a: Answer) -> (u32, u32, u32) {
    (a.position, a.passed, a.moves)
}

// Whether an answer's devices are those of a listing up to its position.
fn is_listing(answer: &[u16], position: usize, listed: &[usize]) -> bool {
    let answered = answer.iter().map(|&d| usize::from(d));
    answered.eq(listed.iter().copied().filter(|&d| d < position))
}

// Whether an accepted answer is the slow listing up to its position, and the plain steps' listing, position, postings passed over and moves.
fn is_right(alloc: Global, case: Case<'_>, answer: &[u16], a: Answer) -> Result<bool, AllocError> {
    let slow = listing(alloc, case.plant, case.indexes, case.query)?;
    let plain = walk_to_end(alloc, case.plant, case.indexes, case.query)?;
    let position = a.position as usize;
    Ok(
        position == plain.position
            && a.passed as usize == plain.passed
            && a.moves as usize == plain.moves
            && is_listing(answer, position, &slow)
            && is_listing(answer, position, &plain.listed),
    )
}

// Whether a query that is answered by `a` ends otherwise where it wants these levels. Its listing is written over.
fn is_moved_by(case: Case<'_>, levels: Levels, answer: &mut [u16], a: Answer) -> bool {
    let query = case.query.with_levels(levels);
    let again = search(case.plant, case.indexes, query, answer);
    again.map_or(true, |b| end(a) != end(b))
}

// Judges a case. A refusal differs by its number, or where it writes to the answer list.
pub fn judge(alloc: Global, case: Case<'_>) -> Result<Verdict, AllocError> {
    let mut answer = vec![in alloc; UNTOUCHED; case.room]?;
    let expected = refusal(case.plant, case.indexes, case.query, case.room);
    let found = search(case.plant, case.indexes, case.query, &mut answer);
    let count = found.map_or(0, |a| a.count as usize);
    let Some((written, rest)) = answer.split_at_checked(count) else {
        return Ok(Verdict::Differs);
    };
    if rest.iter().any(|&d| d != UNTOUCHED) {
        return Ok(Verdict::Differs);
    }
    match (found, expected) {
        (Err(found), Some(row)) if found.number() == row => Ok(Verdict::Refused(row)),
        (Ok(a), None) if is_right(alloc, case, written, a)? => {
            let is_moved = is_moved_by(case, Levels::Any, &mut answer, a)
                || is_moved_by(case, Levels::TrueOnly, &mut answer, a);
            Ok(if is_moved {
                Verdict::MovedByLevels
            } else {
                Verdict::Answered
            })
        }
        _ => Ok(Verdict::Differs),
    }
}
