// Damage to tables, indexes and queries, in each way that a row of the refusals names. What comes of it is for the evaluators to say.
use crate::make::{MadeIndex, MadePlant};
use crate::random::Random;
use query::{Levels, Query};
use std::alloc::AllocError;

// The row that each place is damaged by: the device tables by 1 to 4, an index by 5 to 9, what is in which index by 15, the query by 10 to 14.
#[derive(Clone, Copy)]
pub struct Damage {
    pub plant: Option<u16>,
    pub first: Option<u16>,
    pub second: Option<u16>,
    pub filing: Option<u16>,
    pub query: Option<u16>,
}

// That of two rows which lies in low..=high.
fn one_in(low: u16, high: u16, row: Option<u16>, other: Option<u16>) -> Option<u16> {
    let within = |&row: &u16| low <= row && row <= high;
    row.filter(within).or(other.filter(within))
}

// Damage by two rows, at one place each.
pub fn by_rows(row: Option<u16>, other: Option<u16>) -> Damage {
    Damage {
        plant: one_in(1, 4, row, other),
        first: one_in(5, 9, row, other),
        second: one_in(55, 59, row, other).map(|row| row.saturating_sub(50)),
        filing: one_in(15, 15, row, other),
        query: one_in(10, 14, row, other),
    }
}

// Writes the entry at index i, where there is one.
fn put<T: Copy>(table: &mut [T], i: u16, x: T) {
    if let Some(entry) = table.get_mut(usize::from(i)) {
        *entry = x;
    }
}

// 1: device tables whose lengths differ.
pub fn lengths(
    random: &mut Random,
    kind: Option<u16>,
    plant: &mut MadePlant,
) -> Result<(), AllocError> {
    match (kind, random.draw(2)) {
        (Some(1), 0) => plant.root.push(0)?,
        (Some(1), _) => plant.level.push(0)?,
        _ => {}
    }
    Ok(())
}

// 14: too little room for the answer list of n devices. That of a sound query has some to spare.
pub fn room(random: &mut Random, kind: Option<u16>, n: u16) -> u16 {
    let extra = random.draw(3);
    match kind {
        None => n.saturating_add(extra),
        Some(14) => n.saturating_sub(1),
        Some(_) => n,
    }
}

// 2, 3, 4: an entry of the device tables.
pub fn plant(random: &mut Random, kind: Option<u16>, n: u16, plant: &mut MadePlant) {
    let d = random.draw(n);
    let x = random.draw(n.saturating_add(3));
    match kind {
        Some(2) => put(&mut plant.last, d, x),
        Some(3) => {
            let length = random.draw(n.saturating_sub(d));
            put(
                &mut plant.last,
                d,
                d.saturating_add(1).saturating_add(length),
            );
        }
        Some(4) => put(&mut plant.root, d, x),
        _ => {}
    }
}

// 6: a term of an index, 0 or one above its base that may not rise.
fn odd_entry(random: &mut Random, base: u16) -> u16 {
    if random.draw(4) == 0 {
        return 0;
    }
    base.saturating_add(random.draw(6))
}

// 6, 7, 8: an entry of an index of k terms.
pub fn index(
    random: &mut Random,
    kind: Option<u16>,
    base: u16,
    n: u16,
    k: u16,
    index: &mut MadeIndex,
) {
    let p = index.posting_count();
    let t = random.draw(k);
    let i = random.draw(p);
    match kind {
        Some(6) => put(&mut index.terms, t, odd_entry(random, base)),
        Some(7) => put(
            &mut index.starts,
            t,
            u32::from(random.draw(p.saturating_add(2))),
        ),
        Some(8) => {
            let most = n.saturating_mul(2).saturating_add(4);
            put(&mut index.postings, i, u32::from(random.draw(most)));
        }
        _ => {}
    }
}

// 5, 7: as many starts as terms no more, or none of either.
pub fn outline(kind: Option<u16>, way: u16, index: &mut MadeIndex) -> Result<(), AllocError> {
    match (kind, way) {
        (Some(5), 0) => {
            index.terms.pop();
        }
        (Some(5), _) => index.starts.push(0)?,
        (Some(7), 0) => {
            index.terms.clear();
            index.starts.clear();
        }
        _ => {}
    }
    Ok(())
}

// 10, 11, 12, 13: a field of the query.
pub fn query(random: &mut Random, kind: Option<u16>, n: u16, sound: Query) -> Query {
    let mut query = sound;
    let way = random.draw(2);
    let window = random.draw(3);
    match kind {
        Some(10) if way == 0 => query.required.count = 9,
        Some(10) => query.forbidden.count = 9,
        Some(11) => {
            query.required.places[0] = if way == 0 { 0 } else { 65536 };
            query.required.count = 1;
        }
        Some(12) => query.levels = odd_levels(window),
        Some(13) if way == 0 => query.start = 0,
        Some(13) => query.start = u32::from(n) + 2,
        _ => {}
    }
    query
}

fn odd_levels(way: u16) -> Levels {
    match way {
        0 => Levels::Range(91, 90),
        1 => Levels::Range(90, 255),
        _ => Levels::Range(0, 90),
    }
}
