// The program where the ask cannot be read. Standard input is always open here: an input whose reads fail as a closed one's do stands for it.
#![tactic(auto)]

use std::io;
use std::io::Read;

// Kept: program_test has these lines too; a crate for them would be longer.
// The system's number for a read of an input that is not open.
const BAD_FILE_DESCRIPTOR: i32 = 9;

#[derive(Drop)]
struct ClosedInput;

impl Read for ClosedInput {
    fn read(&mut self, _buffer: &mut [u8]) -> io::Result<usize> {
        Err(io::Error::from_raw_os_error(BAD_FILE_DESCRIPTOR))
    }
}

fn main(rt: HostRuntime) {
    program::run(&rt, &mut ClosedInput, "plant.txt", &mut rt.stderr());
}
