// Indexes that are repaired, or whose repair is refused. What comes of each is printed.
use crate::cases::{CHAIN, Index, NONE, ONE, P, Plant, TWO_ROOTS, print_cases, print_table};
use repair::{Repaired, repair};
use std::io;

// A name, the tables, and how many entries the report has room for.
type Case = (&'static str, Plant, Index, usize);

// Term 7 with own 2, all 2, own 3 and own 5 twice, and term 9 with all 4 and own 6. What is left is plant P.
const TYPED_BY_HAND: Case = (
    "typed by hand",
    P,
    Index(&[7, 9], &[0, 5], &[4, 5, 6, 10, 10, 9, 12]),
    14,
);

// Two indexes with nothing to drop. Of several postings for a device the first shared one stays, else the first; and of those in the branch of a
// shared one, none. The lists after one that loses a posting start sooner, an empty one too.
const REPAIRED: [Case; 6] = [
    (
        "clean, no report",
        P,
        Index(&[7, 9], &[0, 2], &[5, 10, 9]),
        0,
    ),
    ("no devices, no marks", NONE, Index(&[], &[], &[]), 0),
    (
        "own, own, all, own, all of device 4",
        P,
        Index(&[7], &[0], &[8, 8, 9, 8, 9]),
        14,
    ),
    ("all, all", ONE, Index(&[5], &[0], &[3, 3]), 3),
    (
        "a branch in a branch",
        CHAIN,
        Index(&[5], &[0], &[3, 5, 6]),
        7,
    ),
    (
        "an empty list between two",
        TWO_ROOTS,
        Index(&[1, 2, 3], &[0, 2, 2], &[2, 2, 4, 4]),
        7,
    ),
];

// The smallest examples of 41 and 44. 44: a report with exactly enough room, and with an entry less. 8, and equal devices, to which it does not
// apply.
const REFUSED: [Case; 7] = [
    (
        "a device that falls",
        TWO_ROOTS,
        Index(&[5], &[0], &[4, 2]),
        3,
    ),
    ("doubled, no report", ONE, Index(&[5], &[0], &[2, 2]), 0),
    ("a report of 3", ONE, Index(&[5], &[0], &[2, 2]), 3),
    ("a report of 2", ONE, Index(&[5], &[0], &[2, 2]), 2),
    ("device 0", ONE, Index(&[5], &[0], &[0, 2, 2]), 6),
    ("device N + 1", ONE, Index(&[5], &[0], &[2, 2, 4]), 6),
    ("equal devices", ONE, Index(&[5], &[0], &[2, 2, 2]), 6),
];

// Two rows apply; in the last, something is wrong in every table.
const ORDER: [Case; 4] = [
    ("8 before 41", TWO_ROOTS, Index(&[5], &[0], &[4, 2, 6]), 3),
    ("41 before 44", TWO_ROOTS, Index(&[5], &[0], &[4, 4, 2]), 0),
    ("7 before 8", ONE, Index(&[5], &[1], &[2, 0]), 3),
    (
        "1 before all",
        Plant(&[9, 1], &[3], &[]),
        Index(&[2, 0], &[1], &[4, 4, 2, 0]),
        0,
    ),
];

// 1 to 4, and 5 to 7, with a doubled posting.
const TABLES: [Case; 7] = [
    (
        "two levels for one device",
        Plant(&[1], &[1], &[0, 0]),
        Index(&[5], &[0], &[2, 2]),
        3,
    ),
    (
        "a last below its device",
        Plant(&[0], &[1], &[0]),
        Index(&[5], &[0], &[2, 2]),
        3,
    ),
    (
        "branches that overlap",
        Plant(&[2, 3, 3], &[1, 1, 2], &[0, 0, 0]),
        Index(&[5], &[0], &[2, 2]),
        3,
    ),
    (
        "a wrong root",
        Plant(&[1], &[2], &[0]),
        Index(&[5], &[0], &[2, 2]),
        3,
    ),
    (
        "two marks, one start",
        ONE,
        Index(&[5, 6], &[0], &[2, 2]),
        3,
    ),
    ("mark 0", ONE, Index(&[0], &[0], &[2, 2]), 3),
    ("first start 1", ONE, Index(&[5], &[1], &[2, 2]), 3),
];

// Repairs a copy of an index, and prints what comes of it. Returns the starts and the postings that are left.
fn print_repair<R: Print + AllocGlobal>(
    rt: &R,
    (name, plant, index, room): Case,
) -> io::Result<(Vec<u32>, Vec<u32>)> {
    let Index(terms, starts, postings) = index;
    let mut starts = starts.to_vec(rt.alloc())?;
    let mut postings = postings.to_vec(rt.alloc())?;
    let mut report = vec![in rt.alloc(); 99; room]?;
    let repaired = repair(
        plant.tables(),
        terms,
        &mut starts,
        &mut postings,
        &mut report,
    );
    println!(rt; "{name}")?;
    match repaired {
        Ok(Repaired { dropped, left }) => println!(rt; "dropped {dropped} left {left}")?,
        Err(refusal) => println!(rt; "refused {refusal}")?,
    }
    print_table(rt, "starts", &starts)?;
    print_table(rt, "postings", &postings)?;
    print_table(rt, "report", &report)?;
    if let Ok(Repaired { left, .. }) = repaired {
        postings.truncate(left);
    }
    Ok((starts, postings))
}

pub fn print_all<R: Print + AllocGlobal>(rt: &R) -> io::Result<()> {
    let groups: [&[Case]; 4] = [&REPAIRED, &REFUSED, &ORDER, &TABLES];
    print_cases(rt, TYPED_BY_HAND, TYPED_BY_HAND.2.0, &groups, print_repair)
}
