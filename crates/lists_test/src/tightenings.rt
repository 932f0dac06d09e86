// Indexes that are tightened, or whose tightening is refused. What comes of each is printed.
use crate::cases::{CHAIN, Index, NONE, P, Plant, print_cases, print_table};
use std::io;
use tighten::tighten;

type Case = (&'static str, Plant, Index);

// Term 7 with own 2, own 3 and own 5, and term 9 with own 4, own 5 and own 6. What is left is plant P.
const DEVICE_BY_DEVICE: Case = (
    "device by device",
    P,
    Index(&[7, 9], &[0, 3], &[4, 6, 10, 8, 10, 12]),
);

// Branches that carry a term throughout, by postings of either kind; a root whose last child does not carry the term, or not throughout; a leaf.
const LISTS: [Case; 10] = [
    ("every device", P, Index(&[5], &[0], &[2, 4, 6, 8, 10, 12])),
    ("own 1, all 2, all 4", P, Index(&[5], &[0], &[2, 5, 9])),
    ("own 4, all 5, own 6", P, Index(&[5], &[0], &[8, 11, 12])),
    ("all but device 6", P, Index(&[5], &[0], &[2, 4, 6, 8, 10])),
    ("all but branch 4", P, Index(&[5], &[0], &[2, 4, 6])),
    ("all of a leaf", P, Index(&[5], &[0], &[11])),
    (
        "two trees",
        Plant(&[2, 2, 4, 4], &[1, 1, 3, 3], &[0; 4]),
        Index(&[5], &[0], &[2, 4, 6, 8]),
    ),
    ("a chain", CHAIN, Index(&[5], &[0], &[2, 4, 6])),
    (
        "a chain without its last",
        CHAIN,
        Index(&[5], &[0], &[2, 4]),
    ),
    ("a chain without its top", CHAIN, Index(&[5], &[0], &[4, 6])),
];

// The lists after one that shrinks start sooner, empty ones too. Three indexes stay as they are.
const INDEXES: [Case; 4] = [
    (
        "empty lists between and behind",
        P,
        Index(&[1, 2, 3, 4], &[0, 3, 3, 5], &[8, 10, 12, 4, 6]),
    ),
    ("tight", P, Index(&[7, 9], &[0, 2], &[5, 10, 9])),
    ("no marks", P, Index(&[], &[], &[])),
    ("no devices, a mark", NONE, Index(&[5], &[0], &[])),
];

// 1 to 4, 5 to 7, and 8 and 9, with lists that would otherwise shrink.
const REFUSED: [Case; 11] = [
    (
        "two levels for three devices",
        Plant(&[3; 3], &[1; 3], &[0; 2]),
        Index(&[5], &[0], &[2, 4, 6]),
    ),
    (
        "a last below its device",
        Plant(&[3, 3, 2], &[1; 3], &[0; 3]),
        Index(&[5], &[0], &[2, 4, 6]),
    ),
    (
        "branches that overlap",
        Plant(&[2, 3, 3], &[1, 1, 2], &[0; 3]),
        Index(&[5], &[0], &[2, 4, 6]),
    ),
    (
        "a wrong root",
        Plant(&[3; 3], &[1, 1, 2], &[0; 3]),
        Index(&[5], &[0], &[2, 4, 6]),
    ),
    (
        "two marks, one start",
        CHAIN,
        Index(&[5, 6], &[0], &[2, 4, 6]),
    ),
    ("mark 0", CHAIN, Index(&[0], &[0], &[2, 4, 6])),
    ("first start 1", CHAIN, Index(&[5], &[1], &[2, 4, 6])),
    ("device 0", CHAIN, Index(&[5], &[0], &[0, 4, 6])),
    ("device N + 1", CHAIN, Index(&[5], &[0], &[4, 6, 8])),
    ("equal devices", CHAIN, Index(&[5], &[0], &[4, 6, 6])),
    ("a redundant posting", CHAIN, Index(&[5], &[0], &[2, 5, 6])),
];

// Two rows apply, in the second case 9 in an earlier list than 8; and in the last case all nine.
const ORDER: [Case; 3] = [
    ("7 before 8", CHAIN, Index(&[5], &[1], &[2, 4, 6, 0])),
    ("8 before 9", CHAIN, Index(&[5, 6], &[0, 2], &[5, 6, 0])),
    (
        "1 before all",
        Plant(&[2, 9], &[3], &[]),
        Index(&[2, 0], &[1], &[3, 3, 4, 0]),
    ),
];

// Tightens a copy of an index, and prints what comes of it. Returns the starts and the postings that are left.
fn print_tightening<R: Print + AllocGlobal>(
    rt: &R,
    (name, plant, index): Case,
) -> io::Result<(Vec<u32>, Vec<u32>)> {
    let Index(terms, starts, postings) = index;
    let mut starts = starts.to_vec(rt.alloc())?;
    let mut postings = postings.to_vec(rt.alloc())?;
    let tightened = tighten(plant.tables(), terms, &mut starts, &mut postings);
    println!(rt; "{name}")?;
    match tightened {
        Ok(left) => println!(rt; "left {left}")?,
        Err(refusal) => println!(rt; "refused {refusal}")?,
    }
    print_table(rt, "starts", &starts)?;
    print_table(rt, "postings", &postings)?;
    if let Ok(left) = tightened {
        postings.truncate(left);
    }
    Ok((starts, postings))
}

pub fn print_all<R: Print + AllocGlobal>(rt: &R) -> io::Result<()> {
    let groups: [&[Case]; 4] = [&LISTS, &INDEXES, &REFUSED, &ORDER];
    print_cases(
        rt,
        DEVICE_BY_DEVICE,
        DEVICE_BY_DEVICE.2.0,
        &groups,
        print_tightening,
    )
}
