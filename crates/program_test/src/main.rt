// The program's run on stored inputs, one after another. Of each the output has its name, what the program prints, and what it says on
// standard error.
#![tactic(auto)]

use std::io::Read;
use std::rt::Files;
use std::{fs, io};

// The system's number for a read of an input that is not open.
const BAD_FILE_DESCRIPTOR: i32 = 9;

// An input whose reads fail as those of a closed one do.
#[derive(Drop)]
struct ClosedInput;

impl Read for ClosedInput {
    fn read(&mut self, _buffer: &mut [u8]) -> io::Result<usize> {
        Err(io::Error::from_raw_os_error(BAD_FILE_DESCRIPTOR))
    }
}

// The ask that the input has, over the plant of the file. What is said is kept, and shown after what is printed.
fn run<R: Files + Print + Alloc, I: Read>(
    rt: &R,
    name: &str,
    input: &mut I,
    plant: &str,
) -> io::Result<()> {
    println!(rt; "{name}")?;
    let mut said = Vec::new(rt.alloc());
    program::run(rt, input, plant, &mut said);
    rt.write_all(said.as_slice())
}

// Of each run its name, the file of the ask, if the input is not a closed one, and the file of the plant.
const RUNS: [(&str, Option<&str>, &str); 10] = [
    // The plant or the ask cannot be read: that comes before all else, also where the other would be refused.
    ("missing plant", Some("unfinished_ask.txt"), "missing.txt"),
    ("plant is folder", Some("ask.txt"), "folder"),
    ("closed input", None, "refused_plant.txt"),
    ("ask is folder", Some("folder"), "refused_plant.txt"),
    // Both are read and one is refused: the plant before the ask, the ask before the query.
    ("empty input", Some("empty_ask.txt"), "plant.txt"),
    (
        "refused plant",
        Some("unfinished_ask.txt"),
        "refused_plant.txt",
    ),
    ("refused ask", Some("refused_ask.txt"), "plant.txt"),
    ("refused query", Some("refused_query.txt"), "plant.txt"),
    ("long plant", Some("ask.txt"), "long_plant.txt"),
    // Neither is refused.
    ("answered", Some("ask.txt"), "plant.txt"),
];

// Kept: each of program_missing_plant and the seven beside it is one call of `program::run` too, in a crate of its own, since a program has one
// standard input and one folder of files.
fn main(rt: HostRuntime) -> io::Result<()> {
    for (name, ask, plant) in RUNS {
        match ask {
            Some(ask) => run(&rt, name, &mut fs::open(&rt, ask)?, plant)?,
            None => run(&rt, name, &mut ClosedInput, plant)?,
        }
    }
    Ok(())
}
