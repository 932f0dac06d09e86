// Plant P, and smaller plants.
use crate::parts::write_front;
use crate::print::tell;
use index::IndexTables;
use plant::DeviceTables;
use refusal::Refusal;
use std::io;

// Writes plant P into the first n bytes of a buffer.
pub fn write_p(out: &mut [u8], n: usize) -> Result<usize, Refusal> {
    let plant = DeviceTables {
        last: &[6, 3, 3, 6, 5, 6],
        root: &[1, 1, 1, 1, 1, 1],
        level: &[120, 118, 255, 121, 90, 119],
    };
    let index = IndexTables {
        terms: &[7, 9],
        starts: &[0, 2],
        postings: &[5, 10, 9],
    };
    write_front(out, n, plant, index)
}

// Prints the outcome, and the whole buffer.
fn show<R: Print>(
    rt: &R,
    name: &str,
    written: Result<usize, Refusal>,
    out: &[u8],
) -> io::Result<()> {
    tell(rt, name, written)?;
    rt.write_all(b"\n")?;
    rt.write_all(out)?;
    rt.write_all(b"\n")
}

// Writes plant P into the first n bytes of 120 dots.
fn room<R: Print>(rt: &R, name: &str, n: usize) -> io::Result<()> {
    let mut out = [b'.'; 120];
    let written = write_p(&mut out, n);
    show(rt, name, written, &out)
}

pub fn rooms<R: Print>(rt: &R) -> io::Result<()> {
    room(rt, "plant P, 118 bytes", 118)?;
    room(rt, "plant P, 119 bytes", 119)?;
    room(rt, "plant P, 117 bytes", 117)?;
    room(rt, "plant P, no bytes", 0)
}

// Writes tables into the first n bytes of 60 dots.
fn plant<R: Print>(
    rt: &R,
    name: &str,
    n: usize,
    plant: DeviceTables,
    index: IndexTables,
) -> io::Result<()> {
    let mut out = [b'.'; 60];
    let written = write_front(&mut out, n, plant, index);
    show(rt, name, written, &out)
}

fn no_devices() -> DeviceTables<'static> {
    DeviceTables {
        last: &[],
        root: &[],
        level: &[],
    }
}

fn no_marks() -> IndexTables<'static> {
    IndexTables {
        terms: &[],
        starts: &[],
        postings: &[],
    }
}

fn two_trees<R: Print>(rt: &R) -> io::Result<()> {
    let devices = DeviceTables {
        last: &[2, 2, 3],
        root: &[1, 1, 3],
        level: &[0, 10, 255],
    };
    plant(rt, "two trees", 60, devices, no_marks())
}

fn three_marks<R: Print>(rt: &R) -> io::Result<()> {
    let devices = DeviceTables {
        last: &[1],
        root: &[1],
        level: &[9],
    };
    let marks = IndexTables {
        terms: &[1, 2, 3],
        starts: &[0, 0, 1],
        postings: &[3],
    };
    plant(rt, "three marks", 60, devices, marks)
}

fn one_mark<R: Print>(rt: &R) -> io::Result<()> {
    let marks = IndexTables {
        terms: &[65535],
        starts: &[0],
        postings: &[],
    };
    plant(rt, "a mark without postings", 60, no_devices(), marks)
}

fn nothing<R: Print>(rt: &R, name: &str, n: usize) -> io::Result<()> {
    plant(rt, name, n, no_devices(), no_marks())
}

pub fn small<R: Print>(rt: &R) -> io::Result<()> {
    nothing(rt, "no devices, no marks", 60)?;
    nothing(rt, "no devices, no marks, 8 bytes", 8)?;
    one_mark(rt)?;
    two_trees(rt)?;
    three_marks(rt)
}
