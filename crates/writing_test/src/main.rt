// Writes numbers and words into a buffer of 22 dots, at its front, at its end and where there is no room, and prints it with the count.
#![tactic(auto)]

use std::io::{self, Write};

const NUMBERS: [(usize, u64); 15] = [
    (0, 0),
    (1, 9),
    (2, 10),
    (3, 99),
    (4, 100),
    (5, 65_535),
    (6, 4_294_967_295),
    (0, 9_999_999_999_999_999_999),
    (0, 10_000_000_000_000_000_000),
    (2, u64::MAX),
    (3, u64::MAX),
    (21, 7),
    (22, 7),
    (21, 70),
    (usize::MAX, 7),
];

const WORDS: [(usize, &str); 5] = [
    (0, "(place"),
    (16, "(place"),
    (17, "(place"),
    (22, ""),
    (usize::MAX, ""),
];

fn show(rt: &impl Print, out: &[u8], count: usize) -> io::Result<()> {
    io::writer(rt).write_all(out)?;
    println!(rt; " {count}")
}

fn main(rt: HostRuntime) -> io::Result<()> {
    for (at, n) in NUMBERS {
        let mut out = [b'.'; 22];
        let count = writing::put_number(&mut out, at, n);
        show(&rt, &out, count)?;
    }
    for (at, word) in WORDS {
        let mut out = [b'.'; 22];
        let count = writing::put_word(&mut out, at, word.as_bytes());
        show(&rt, &out, count)?;
    }
    Ok(())
}
