// There and back: a text that was read is written again, and tables that were written are read again.
use crate::parts::front;
use crate::plants::write_p;
use crate::print::tell;
use index::IndexTables;
use plant::DeviceTables;
use plant_text::Counts;
use std::fmt::Display;
use std::io;

const NOTHING: Counts = Counts {
    devices: 0,
    terms: 0,
    postings: 0,
};

// Whether the buffer holds the text, and dots behind it.
fn holds(out: &[u8], text: &[u8]) -> bool {
    match out.strip_prefix(text) {
        Some(rest) => rest.iter().all(|b| *b == b'.'),
        None => false,
    }
}

// Writes what was read of a text into 200 dots, and says whether that is the text.
fn rewrite<R: Print>(
    rt: &R,
    name: &str,
    text: &[u8],
    plant: DeviceTables,
    index: IndexTables,
) -> io::Result<()> {
    let mut out = [b'.'; 200];
    let written = plant_writer::write(plant, index, &mut out);
    tell(rt, name, written)?;
    let which = if holds(&out, text) { "same" } else { "another" };
    println!(rt; ", {which}")
}

// Prints three tables side by side.
fn rows<R: Print, A: Display, B: Display, C: Display>(
    rt: &R,
    a: &[A],
    b: &[B],
    c: &[C],
) -> io::Result<()> {
    for ((x, y), z) in a.iter().zip(b).zip(c) {
        println!(rt; "{x} {y} {z}")?;
    }
    Ok(())
}

// Reads a text into tables of eight entries, writes those again, and prints them where they are to be shown.
fn again<R: Print>(rt: &R, name: &str, text: &[u8], shown: bool) -> io::Result<()> {
    let mut last = [9u16; 8];
    let mut root = [9u16; 8];
    let mut level = [9u8; 8];
    let mut terms = [9u16; 8];
    let mut starts = [9u32; 8];
    let mut postings = [9u32; 8];
    let read = plant_text::read(
        text,
        &mut last,
        &mut root,
        &mut level,
        &mut terms,
        &mut starts,
        &mut postings,
    );
    let Counts {
        devices,
        terms: t,
        postings: p,
    } = read.unwrap_or(NOTHING);
    let plant = DeviceTables {
        last: front(&last, devices),
        root: front(&root, devices),
        level: front(&level, devices),
    };
    let index = IndexTables {
        terms: front(&terms, t),
        starts: front(&starts, t),
        postings: front(&postings, p),
    };
    rewrite(rt, name, text, plant, index)?;
    if shown {
        rt.println("last, root, level")?;
        rows(rt, &last, &root, &level)?;
        rt.println("marks, starts, postings")?;
        rows(rt, &terms, &starts, &postings)?;
    }
    Ok(())
}

pub fn texts<R: Print>(rt: &R) -> io::Result<()> {
    again(
        rt,
        "plant P, read and written",
        b"(plant\n(dev 120\n(dev 118\n(dev 255\n)\n)\n(dev 121\n(dev 90\n)\n(dev 119\n)\n)\n)\n(mark 7\n(all 2)\n(own 5)\n)\n(mark 9\n(all 4)\n)\n)\n",
        false,
    )?;
    again(
        rt,
        "no devices, no marks, read and written",
        b"(plant\n)\n",
        false,
    )?;
    again(
        rt,
        "levels of one to three digits, read and written",
        b"(plant\n(dev 0\n(dev 9\n)\n(dev 10\n(dev 99\n)\n)\n)\n(dev 100\n)\n(dev 255\n)\n)\n",
        false,
    )?;
    again(
        rt,
        "marks without postings, read and written",
        b"(plant\n(dev 1\n)\n(mark 1\n)\n(mark 10\n(own 1)\n)\n(mark 65535\n)\n)\n",
        false,
    )
}

// Plant P is written, and its text read into larger tables.
pub fn tables<R: Print>(rt: &R) -> io::Result<()> {
    let mut out = [b'.'; 120];
    let n = write_p(&mut out, 120).unwrap_or(0);
    again(rt, "plant P, written and read", front(&out, n), true)
}
