// The search beside the evaluators over small plants, pairs of indexes and queries from a fixed seed: sound ones, and ones damaged in each way
// that the rows of the refusals name, or in two. Prints how often each answer arose, in how many cases anything differed, and in how many of
// those answered another choice of levels gave another position, passed over other postings or made other moves.
use crate::compare::{Case, Verdict, judge};
use crate::make::{MadeIndex, MadePlant};
use crate::random::Random;
use crate::spoil::Damage;
use crate::{make, spoil};
use std::alloc::{AllocError, Global};
use std::io;
use two_indexes::TwoIndexes;

const CASES: usize = 8000;

// The rows of the refusals in the order in which they are tested.
const ROWS: [u16; 20] = [
    1, 2, 3, 4, 5, 6, 7, 8, 9, 55, 56, 57, 58, 59, 15, 10, 11, 12, 13, 14,
];

// Row i, counted from 1.
fn row_at(i: usize) -> Option<u16> {
    ROWS.get(i.checked_sub(1)?).copied()
}

// An index over n devices, of k terms above `base`, damaged in the way that `kind` names.
fn one_index(
    alloc: Global,
    random: &mut Random,
    kind: Option<u16>,
    k: u16,
    base: u16,
    n: u16,
    plant: &MadePlant,
) -> Result<MadeIndex, AllocError> {
    let way = random.draw(3);
    let is_redundant = kind == Some(9);
    let mut made = make::index(alloc, random, plant.lent(), n, k, base, is_redundant)?;
    spoil::index(random, kind, base, n, k, &mut made);
    spoil::outline(kind, way, &mut made)?;
    Ok(made)
}

// One case: a plant, two indexes, the second empty in half of the cases, and a query, damaged or not.
fn one_case(alloc: Global, random: &mut Random, damage: Damage) -> Result<Verdict, AllocError> {
    let n = random.draw(8);
    let is_second = random.draw(2) == 1;
    let k = random.draw(4);
    let more = random.draw(6).saturating_sub(2);
    let mut plant = make::devices(alloc, random, n)?;
    let is_misfiled = damage.filing.is_some();
    let low = make::base(random, k, false, is_misfiled && !is_second);
    let high = make::base(random, more, true, is_misfiled && is_second);
    let first = one_index(alloc, random, damage.first, k, low, n, &plant)?;
    let second = one_index(alloc, random, damage.second, more, high, n, &plant)?;
    let sound = make::query(random, n, low, high);
    let query = spoil::query(random, damage.query, n, sound);
    spoil::lengths(random, damage.plant, &mut plant)?;
    let room = spoil::room(random, damage.query, n);
    spoil::plant(random, damage.plant, n, &mut plant);
    let case = Case {
        plant: plant.lent(),
        indexes: TwoIndexes {
            first: first.lent(),
            second: second.lent(),
        },
        query,
        room: usize::from(room),
    };
    judge(alloc, case)
}

// Of 24 cases each row damages one, and four are left sound. A third of all are damaged by another row too.
fn verdicts(alloc: Global) -> Result<Vec<Verdict>, AllocError> {
    let mut random = Random { seed: 20261115 };
    let mut verdicts = Vec::new(alloc);
    for i in 0..CASES {
        let other = random.draw(60);
        let damage = spoil::by_rows(row_at(i % 24), row_at(usize::from(other)));
        verdicts.push(one_case(alloc, &mut random, damage)?)?;
    }
    Ok(verdicts)
}

pub fn print_cases<R: Print + AllocGlobal>(rt: &R) -> io::Result<()> {
    let verdicts = verdicts(rt.alloc())?;
    let count = |verdict| verdicts.iter().filter(|&&v| v == verdict).count();
    let moved = count(Verdict::MovedByLevels);
    let answered = count(Verdict::Answered);
    println!(rt; "cases, answered: {CASES} {answered}")?;
    for row in ROWS {
        println!(rt; "refusal {row} {}", count(Verdict::Refused(u32::from(row))))?;
    }
    println!(rt; "differences, of: {} {CASES}", count(Verdict::Differs))?;
    println!(rt; "moved by levels, of: {moved} {answered}")
}
