// Outcomes, and how many dots are left.
use refusal::Refusal;
use std::io;

// Prints `: made` and the length, or `: refused` and the number.
pub fn tell<R: Print>(rt: &R, name: &str, written: Result<usize, Refusal>) -> io::Result<()> {
    match written {
        Ok(length) => print!(rt; "{name}: made {length}"),
        Err(refusal) => print!(rt; "{name}: refused {refusal}"),
    }
}

// Prints how many of the bytes are dots.
pub fn dots<R: Print>(rt: &R, out: &[u8]) -> io::Result<()> {
    let n = out.iter().filter(|b| **b == b'.').count();
    println!(rt; ", dots {n}")
}
