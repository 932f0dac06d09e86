// Small plants, indexes and queries, made from a seed.
use crate::random::Random;
use crate::tables::{last_of, reach};
use index::IndexTables;
use plant::DeviceTables;
use query::{Levels, Query, Terms};
use std::alloc::{AllocError, Global};

// The tables of a plant and of an index, as they are made, and lent from here.
#[derive(Drop)]
pub struct MadePlant {
    pub last: Vec<u16>,
    pub root: Vec<u16>,
    pub level: Vec<u8>,
}

impl MadePlant {
    pub fn lent(&self) -> DeviceTables<'_> {
        DeviceTables {
            last: &self.last,
            root: &self.root,
            level: &self.level,
        }
    }
}

#[derive(Drop)]
pub struct MadeIndex {
    pub terms: Vec<u16>,
    pub starts: Vec<u32>,
    pub postings: Vec<u32>,
}

impl MadeIndex {
    pub fn lent(&self) -> IndexTables<'_> {
        IndexTables {
            terms: &self.terms,
            starts: &self.starts,
            postings: &self.postings,
        }
    }

    // The number of postings, as a number to draw below.
    pub fn posting_count(&self) -> u16 {
        u16::try_from(self.postings.len()).unwrap_or(u16::MAX)
    }
}

// The root of the device at index d, from that of the one before it.
fn root_at(plant: DeviceTables<'_>, d: u16) -> u16 {
    match plant.root.last() {
        Some(&root) if usize::from(d) < last_of(plant, usize::from(root)) => root,
        _ => d.saturating_add(1),
    }
}

// Device tables of n devices. A device's branch ends within the innermost one that holds it.
pub fn devices(alloc: Global, random: &mut Random, n: u16) -> Result<MadePlant, AllocError> {
    let mut made = MadePlant {
        last: Vec::new(alloc),
        root: Vec::new(alloc),
        level: Vec::new(alloc),
    };
    for d in 0..n {
        let end = made
            .last
            .iter()
            .copied()
            .filter(|&last| d < last)
            .min()
            .unwrap_or(n);
        let length = random.draw(end.saturating_sub(d));
        made.last.push(d.saturating_add(1).saturating_add(length))?;
        let root = root_at(made.lent(), d);
        made.root.push(root)?;
        made.level.push(level_code(random.draw(6)))?;
    }
    Ok(made)
}

fn level_code(k: u16) -> u8 {
    match k {
        0 => 0,
        1 => 1,
        2 => 90,
        3 => 118,
        4 => 254,
        _ => 255,
    }
}

// What the k terms of an index lie above, by at most 2k: an end of the terms of the first index, or of the second, or 32,766 where terms of both
// are to be mixed. The terms of a query lie above it by at most 6.
pub fn base(random: &mut Random, k: u16, is_second: bool, is_mixed: bool) -> u16 {
    let is_low = random.draw(2) == 0;
    match (is_mixed, is_second, is_low) {
        (true, _, _) => 32766,
        (false, true, true) => 32767,
        (false, true, false) => 65529,
        (false, false, true) => 0,
        (false, false, false) => 32767u16.saturating_sub(k.saturating_mul(2)),
    }
}

// The first k of three terms that rise, above `base`.
fn terms(alloc: Global, random: &mut Random, base: u16, k: u16) -> Result<Vec<u16>, AllocError> {
    let mut terms = Vec::new(alloc);
    let mut term = base;
    for i in 0..3 {
        term = term.saturating_add(1).saturating_add(random.draw(2));
        if i < k {
            terms.push(term)?;
        }
    }
    Ok(terms)
}

// An index of k terms above `base` over n devices, each list one device after another, with redundant postings among them or not.
pub fn index(
    alloc: Global,
    random: &mut Random,
    plant: DeviceTables<'_>,
    n: u16,
    k: u16,
    base: u16,
    is_redundant: bool,
) -> Result<MadeIndex, AllocError> {
    let mut made = MadeIndex {
        terms: terms(alloc, random, base, k)?,
        starts: Vec::new(alloc),
        postings: Vec::new(alloc),
    };
    for _ in 0..k {
        let start = u32::from(made.posting_count());
        made.starts.push(start)?;
        list(random, plant, n, is_redundant, &mut made.postings)?;
    }
    Ok(made)
}

// Adds a list of postings. Those that a shared posting covers are left out unless they are to be redundant.
fn list(
    random: &mut Random,
    plant: DeviceTables<'_>,
    n: u16,
    is_redundant: bool,
    postings: &mut Vec<u32>,
) -> Result<(), AllocError> {
    let mut covered = 0;
    for d in 1..=n.max(1) {
        let kind = random.draw(4);
        if d <= n && covered < usize::from(d) && 2 <= kind {
            let posting = 2 * u32::from(d) + u32::from(kind - 2);
            postings.push(posting)?;
            if !is_redundant {
                covered = reach(plant, posting);
            }
        }
    }
    Ok(())
}

// A range in half of the cases, any level and true levels only in a quarter each.
fn levels(random: &mut Random) -> Levels {
    match random.draw(8) {
        0 => Levels::Range(1, 254),
        1 => Levels::Range(1, 90),
        2 => Levels::Range(90, 118),
        3 => Levels::Range(118, 254),
        4 | 5 => Levels::Any,
        _ => Levels::TrueOnly,
    }
}

fn budget(random: &mut Random) -> u32 {
    if random.draw(3) == 0 {
        Query::LARGEST_BUDGET
    } else {
        u32::from(random.draw(6))
    }
}

// A term above one of two bases, which may be in an index or not.
fn term(random: &mut Random, low: u16, high: u16) -> u32 {
    let more = u32::from(random.draw(6)) + 1;
    let base = if random.draw(2) == 0 { low } else { high };
    u32::from(base) + more
}

// Three terms in eight places.
fn places(random: &mut Random, low: u16, high: u16) -> [u32; 8] {
    let a = term(random, low, high);
    let b = term(random, low, high);
    let c = term(random, low, high);
    [a, b, c, 0, 0, 0, 0, 0]
}

// A query over a plant of n devices, with terms above two bases.
pub fn query(random: &mut Random, n: u16, low: u16, high: u16) -> Query {
    let required = places(random, low, high);
    let forbidden = places(random, low, high);
    let levels = levels(random);
    Query {
        required: Terms {
            places: required,
            count: usize::from(random.draw(3)),
        },
        forbidden: Terms {
            places: forbidden,
            count: usize::from(random.draw(3)),
        },
        levels,
        start: u32::from(random.draw(n.saturating_add(1))) + 1,
        budget: budget(random),
    }
}
