// The program: reads the query from an input that is open and the plant from a file, and prints the answer. What cannot be read or
// written is named on standard error, with the reason.
#![tactic(auto)]

ghost use Rattle.std.specs.Prelude.{◌≤◌, length, IfOk};

use std::io::{Read, Write};
use std::rt::Files;
use std::{fs, io};

// Says why something failed. What cannot be said is lost.
fn say<E: Write>(said: &mut E, what: &str, reason: io::Error) {
    let _ = writeln!(said, "{what}: {reason}");
}

// Reads the input to its end, or until the buffer is full. Returns how many bytes.
fn read_all<I: Read>(input: &mut I, buffer: &mut [u8]) -> io::Result<usize>
    ensures { IfOk result (λ n. n ≤ length buffer.old) }
{
    let mut done = 0;
    while done < buffer.len() {
        let n = input.read(&mut buffer[done..])?;
        if n == 0 {
            break;
        }
        done += n;
    }
    Ok(done)
}

// The same of a file.
fn read_file<R: Files>(rt: &R, name: &str, buffer: &mut [u8]) -> io::Result<usize>
    ensures { IfOk result (λ n. n ≤ length buffer.old) }
{
    let mut file = fs::open(rt, name)?;
    read_all(&mut file, buffer)
}

// Writes the text to standard output. It may be written in part before a write fails.
fn print<R: Print, E: Write>(rt: &R, text: &[u8], said: &mut E) {
    if let Err(reason) = rt.write_all(text) {
        say(said, "the answer is not whole", reason);
    }
}

// Says why the input of that name cannot be read, and prints that it is refused.
fn refuse_file<R: Print, E: Write>(rt: &R, name: &str, reason: io::Error, said: &mut E) {
    say(said, name, reason);
    print(rt, b"(refused file)\n", said);
}

// Prints the answer to what was read.
fn answer<R: Print, E: Write>(rt: &R, plant: &[u8], query: &[u8], said: &mut E) {
    let mut out = [0u8; 16384];
    let n = respond::respond(plant, query, &mut out);
    print(rt, &out[..n], said);
}

// Prints the answer to the query that the input has, over the plant of the file. What `respond` says of the two texts is printed, or that
// one of them cannot be read. What could not be read or written goes to `said`, with the reason. Each buffer has room for one byte past the
// limit of its text. The query is read first: where standard input is closed, the file would be opened in its place.
pub fn run<R: Files + Print, I: Read, E: Write>(rt: &R, input: &mut I, name: &str, said: &mut E) {
    let mut query = [0u8; 4097];
    let mut plant = [0u8; 65537];
    match read_all(input, &mut query) {
        Err(reason) => refuse_file(rt, "ask", reason, said),
        Ok(q) => match read_file(rt, name, &mut plant) {
            Err(reason) => refuse_file(rt, name, reason, said),
            Ok(p) => answer(rt, &plant[..p], &query[..q], said),
        },
    }
}
