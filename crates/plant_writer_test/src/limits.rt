// Plants at the limits of rows 36 and 40, and rows that come before these.
ghost use Rattle.std.specs.Prelude.{◌≡◌, length};

use crate::parts::{front, write_front};
use crate::print::{dots, tell};
use index::IndexTables;
use plant::DeviceTables;
use std::io;

// Writes a chain of so many devices, at most 33, that have this root, into the first n bytes of 400 dots. A mark has the first so many of two
// postings, the second of which is redundant.
fn chain<R: Print>(
    rt: &R,
    name: &str,
    devices: u16,
    root: u16,
    notes: usize,
    n: usize,
) -> io::Result<()> {
    let last: [u16; 33] = [devices; 33];
    let roots: [u16; 33] = [root; 33];
    let level: [u8; 33] = [0; 33];
    let postings: [u32; 2] = [3, 4];
    let mut out = [b'.'; 400];
    let d = usize::from(devices);
    let plant = DeviceTables {
        last: front(&last, d),
        root: front(&roots, d),
        level: front(&level, d),
    };
    let index = IndexTables {
        terms: &[1],
        starts: &[0],
        postings: front(&postings, notes),
    };
    let written = write_front(&mut out, n, plant, index);
    tell(rt, name, written)?;
    dots(rt, &out)
}

// 36 comes after the rows of the tables and before 40.
pub fn tiers<R: Print>(rt: &R) -> io::Result<()> {
    chain(rt, "32 tiers", 32, 1, 1, 400)?;
    chain(rt, "33 tiers", 33, 1, 1, 400)?;
    chain(rt, "33 tiers, no bytes", 33, 1, 1, 0)?;
    chain(rt, "33 tiers, a wrong root", 33, 2, 1, 400)?;
    chain(rt, "33 tiers, a redundant posting", 33, 1, 2, 400)?;
    chain(rt, "32 tiers, a redundant posting, no bytes", 32, 1, 2, 0)?;
    chain(rt, "32 tiers, no bytes", 32, 1, 1, 0)
}

// A table in which each device has its own number.
fn numbers() -> [u16; 5958]
    ensures { 5958 ≡ length result }
{
    let mut table: [u16; 5958] = [0; 5958];
    for (i, d) in table.iter_mut().enumerate() {
        *d = i as u16 + 1;
    }
    table
}

// Writes so many devices that feed none, at most 5,958, each in 11 bytes, into the first n bytes of 65,600 dots.
fn leaves<R: Print>(rt: &R, name: &str, devices: usize, n: usize) -> io::Result<()> {
    let last = numbers();
    let root = numbers();
    let level: [u8; 5958] = [100; 5958];
    let mut out = [b'.'; 65600];
    let plant = DeviceTables {
        last: front(&last, devices),
        root: front(&root, devices),
        level: front(&level, devices),
    };
    let index = IndexTables {
        terms: &[],
        starts: &[],
        postings: &[],
    };
    let written = write_front(&mut out, n, plant, index);
    tell(rt, name, written)?;
    dots(rt, &out)
}

// 40: 9 bytes and 5,957 devices make 65,536, and one device more makes 65,547.
pub fn lengths<R: Print>(rt: &R) -> io::Result<()> {
    leaves(rt, "5,957 roots", 5957, 65600)?;
    leaves(rt, "5,957 roots, 65,536 bytes", 5957, 65536)?;
    leaves(rt, "5,957 roots, 65,535 bytes", 5957, 65535)?;
    leaves(rt, "5,958 roots", 5958, 65600)
}
