// Steps over a sorted list and an unsorted one, from the start, from within, from the end and from past it, and prints where each step lands and
// how many postings it passed over.
#![tactic(auto)]

use posting_cursor::{seek_from, seek_twice};
use std::io::{self, Print};

// Prints `name position device: index passed n`, and answers the index where the step lands.
fn show(
    rt: &impl Print,
    name: &str,
    list: &[u32],
    position: usize,
    device: u32,
) -> io::Result<usize> {
    let step = seek_from(list, position, device);
    println!(rt;
        "{name} {position} {device}: {} passed {}",
        step.at, step.passed
    )?;
    Ok(step.at)
}

// Prints `name twice first second: index passed n`.
fn show_twice(
    rt: &impl Print,
    name: &str,
    list: &[u32],
    first: u32,
    second: u32,
) -> io::Result<()> {
    let step = seek_twice(list, first, second);
    println!(rt;
        "{name} twice {first} {second}: {} passed {}",
        step.at, step.passed
    )
}

// Seeks devices 2, 4, 4, 7 and 11, each from where the last step landed; then from past the end.
fn walk(rt: &impl Print, name: &str, list: &[u32]) -> io::Result<()> {
    let mut at = 0;
    for device in [2, 4, 4, 7, 11, 1] {
        at = show(rt, name, list, at, device)?;
    }
    show(rt, name, list, 100, 0)?;
    Ok(())
}

fn main(rt: HostRuntime) -> io::Result<()> {
    // devices 1, 2, 4, 4, 6, 10
    let sorted = [2, 5, 8, 9, 13, 20];
    walk(&rt, "sorted", &sorted)?;
    for (position, device) in [(3, 4), (4, 0), (1, 11)] {
        show(&rt, "sorted", &sorted, position, device)?;
    }
    show_twice(&rt, "sorted", &sorted, 3, 6)?;
    // devices 4, 1, 9, 2, 7
    let unsorted = [8, 3, 18, 4, 15];
    walk(&rt, "unsorted", &unsorted)?;
    for (position, device) in [(1, 2), (3, 3)] {
        show(&rt, "unsorted", &unsorted, position, device)?;
    }
    for (first, second) in [(5, 2), (10, 0)] {
        show_twice(&rt, "unsorted", &unsorted, first, second)?;
    }
    Ok(())
}
