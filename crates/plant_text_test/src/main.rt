// Reads texts and prints what comes of them: document 01's plant P, an example of each refusal, 32 and 33 tiers, and tables with exactly
// enough room and with one place too few.
#![tactic(auto)]

use plant_text::Counts;
use std::fmt::Display;
use std::io;
use text::Refused;

// Document 01's plant P.
const PLANT_P: &[u8] =
    b"(plant\n(dev 120\n(dev 118\n(dev 255\n)\n)\n(dev 121\n(dev 90\n)\n(dev 119\n)\n)\n)\n(mark 7\n(all 2)\n(own 5)\n)\n(mark 9\n(all 4)\n)\n)\n";

// Prints `: made` and the counts, or `: refused`, the number and the line.
fn tell(rt: &HostRuntime, name: &str, read: Result<Counts, Refused>) -> io::Result<()> {
    match read {
        Ok(
            Counts {
                devices,
                terms,
                postings,
            },
        ) => println!(rt; "{name}: made {devices} {terms} {postings}"),
        Err(Refused { line, refusal }) => println!(rt; "{name}: refused {refusal} {line}"),
    }
}

fn print_table<T: Display>(rt: &HostRuntime, name: &str, table: &[T]) -> io::Result<()> {
    print!(rt; "{name}")?;
    for entry in table {
        print!(rt; " {entry}")?;
    }
    println!(rt;)
}

// Reads a text into tables of these lengths, device tables first, and prints them where they are to be shown.
fn read(
    rt: &HostRuntime,
    name: &str,
    text: &[u8],
    lengths: [usize; 6],
    shown: bool,
) -> io::Result<()> {
    let alloc = rt.alloc();
    let [d, e, f, n, o, p] = lengths;
    let mut last = vec![in alloc; 9u16; d]?;
    let mut root = vec![in alloc; 9u16; e]?;
    let mut level = vec![in alloc; 9u8; f]?;
    let mut terms = vec![in alloc; 9u16; n]?;
    let mut starts = vec![in alloc; 9u32; o]?;
    let mut postings = vec![in alloc; 9u32; p]?;
    let read = plant_text::read(
        text,
        &mut last,
        &mut root,
        &mut level,
        &mut terms,
        &mut starts,
        &mut postings,
    );
    tell(rt, name, read)?;
    if shown {
        print_table(rt, "last", &last)?;
        print_table(rt, "root", &root)?;
        print_table(rt, "level", &level)?;
        print_table(rt, "terms", &terms)?;
        print_table(rt, "starts", &starts)?;
        print_table(rt, "postings", &postings)?;
    }
    Ok(())
}

fn outcome(rt: &HostRuntime, name: &str, text: &[u8]) -> io::Result<()> {
    read(rt, name, text, [8; 6], false)
}

fn show(rt: &HostRuntime, name: &str, text: &[u8]) -> io::Result<()> {
    read(rt, name, text, [8; 6], true)
}

// Reads a text into device tables of 33 entries.
fn tiers(rt: &HostRuntime, name: &str, text: &[u8]) -> io::Result<()> {
    read(rt, name, text, [33, 33, 33, 1, 1, 1], false)
}

// Reads plant P into tables with so many places each.
fn places(rt: &HostRuntime, name: &str, lengths: [usize; 6]) -> io::Result<()> {
    read(rt, name, PLANT_P, lengths, false)
}

// 20, and 24 at the largest length: one unfinished line of spaces.
fn long(rt: &HostRuntime) -> io::Result<()> {
    let most = [b' '; 65_536];
    let over = [b' '; 65_537];
    outcome(rt, "65,536 bytes", &most)?;
    outcome(rt, "65,537 bytes", &over)?;
    Ok(())
}

// 21: not a form, or a form that cannot stand there.
fn not_forms(rt: &HostRuntime) -> io::Result<()> {
    outcome(rt, "a closing bracket alone", b")\n")?;
    outcome(rt, "a device first", b"(dev 1\n")?;
    outcome(rt, "not a form", b"(plant\n(dev\n)\n)\n")?;
    outcome(rt, "a leading zero", b"(plant\n(dev 01\n)\n)\n")?;
    outcome(rt, "two spaces", b"(plant\n(dev  1\n)\n)\n")?;
    outcome(rt, "a posting outside a mark", b"(plant\n(own 1)\n)\n")?;
    outcome(
        rt,
        "a mark in a device",
        b"(plant\n(dev 1\n(mark 7\n)\n)\n)\n",
    )?;
    outcome(
        rt,
        "a device after a mark",
        b"(plant\n(mark 7\n)\n(dev 1\n)\n)\n",
    )?;
    outcome(rt, "a second plant", b"(plant\n(plant\n")?;
    outcome(rt, "an empty line", b"(plant\n\n)\n")?;
    Ok(())
}

// 22: a level, a mark or a device out of range.
fn out_of_range(rt: &HostRuntime) -> io::Result<()> {
    outcome(rt, "level 256", b"(plant\n(dev 256\n)\n)\n")?;
    outcome(
        rt,
        "a long level",
        b"(plant\n(dev 1\n)\n(dev 18446744073709551616\n)\n)\n",
    )?;
    outcome(
        rt,
        "mark 0",
        b"(plant\n(dev 1\n(dev 2\n(dev 3\n)\n)\n(dev 4\n)\n)\n(dev 5\n)\n(mark 0\n)\n)\n",
    )?;
    outcome(
        rt,
        "mark 65,536",
        b"(plant\n(dev 1\n(dev 2\n(dev 3\n)\n)\n(dev 4\n)\n)\n(dev 5\n)\n(mark 65536\n)\n)\n",
    )?;
    outcome(
        rt,
        "device 0",
        b"(plant\n(dev 1\n(dev 2\n(dev 3\n)\n)\n(dev 4\n)\n)\n(dev 5\n)\n(mark 7\n(own 0)\n)\n)\n",
    )?;
    outcome(
        rt,
        "device above N",
        b"(plant\n(dev 1\n(dev 2\n(dev 3\n)\n)\n(dev 4\n)\n)\n(dev 5\n)\n(mark 7\n(own 5)\n(all 6)\n)\n)\n",
    )?;
    Ok(())
}

// 24 and 25: the bytes end too soon, or go on after the close.
fn ends(rt: &HostRuntime) -> io::Result<()> {
    outcome(rt, "no bytes", b"")?;
    outcome(rt, "the plant line unfinished", b"(plant")?;
    outcome(rt, "the plant line alone", b"(plant\n")?;
    outcome(rt, "a device open", b"(plant\n(dev 1\n)\n")?;
    outcome(rt, "a mark open", b"(plant\n(mark 7\n")?;
    outcome(rt, "the close unfinished", b"(plant\n)")?;
    outcome(rt, "a bracket after the close", b"(plant\n)\n)\n")?;
    outcome(rt, "a space after the close", b"(plant\n)\n ")?;
    Ok(())
}

// 27: a table has no place left; it comes before 28.
fn no_places(rt: &HostRuntime) -> io::Result<()> {
    outcome(
        rt,
        "a ninth device",
        b"(plant\n(dev 0\n)\n(dev 0\n)\n(dev 0\n)\n(dev 0\n)\n(dev 0\n)\n(dev 0\n)\n(dev 0\n)\n(dev 0\n)\n(dev 0\n)\n)\n",
    )?;
    outcome(
        rt,
        "a ninth mark",
        b"(plant\n(mark 1\n)\n(mark 2\n)\n(mark 3\n)\n(mark 4\n)\n(mark 5\n)\n(mark 6\n)\n(mark 7\n)\n(mark 8\n)\n(mark 9\n)\n)\n",
    )?;
    outcome(
        rt,
        "a ninth mark that falls",
        b"(plant\n(mark 1\n)\n(mark 2\n)\n(mark 3\n)\n(mark 4\n)\n(mark 5\n)\n(mark 6\n)\n(mark 7\n)\n(mark 8\n)\n(mark 2\n)\n)\n",
    )?;
    outcome(
        rt,
        "a ninth posting",
        b"(plant\n(dev 1\n(dev 2\n(dev 3\n)\n)\n(dev 4\n)\n)\n(dev 5\n)\n(mark 1\n(own 1)\n(own 2)\n(own 3)\n(own 4)\n(own 5)\n)\n(mark 2\n(own 1)\n(own 2)\n(own 3)\n(own 4)\n(own 5)\n)\n)\n",
    )?;
    Ok(())
}

// 28: marks or devices that do not rise.
fn falls(rt: &HostRuntime) -> io::Result<()> {
    outcome(rt, "a mark again", b"(plant\n(mark 7\n)\n(mark 7\n)\n)\n")?;
    outcome(
        rt,
        "a mark that falls",
        b"(plant\n(mark 7\n)\n(mark 6\n)\n)\n",
    )?;
    outcome(
        rt,
        "a device again",
        b"(plant\n(dev 1\n(dev 2\n(dev 3\n)\n)\n(dev 4\n)\n)\n(dev 5\n)\n(mark 7\n(own 2)\n(all 2)\n)\n)\n",
    )?;
    outcome(
        rt,
        "a device that falls",
        b"(plant\n(dev 1\n(dev 2\n(dev 3\n)\n)\n(dev 4\n)\n)\n(dev 5\n)\n(mark 7\n(own 2)\n(all 1)\n)\n)\n",
    )?;
    outcome(
        rt,
        "a device that falls in a branch",
        b"(plant\n(dev 1\n(dev 2\n(dev 3\n)\n)\n(dev 4\n)\n)\n(dev 5\n)\n(mark 7\n(all 1)\n(own 5)\n(own 2)\n)\n)\n",
    )?;
    Ok(())
}

// 29: redundant postings; then texts that are taken.
fn redundant(rt: &HostRuntime) -> io::Result<()> {
    outcome(
        rt,
        "all 2 and own 3",
        b"(plant\n(dev 1\n(dev 2\n(dev 3\n)\n)\n(dev 4\n)\n)\n(dev 5\n)\n(mark 7\n(all 2)\n(own 3)\n)\n)\n",
    )?;
    outcome(
        rt,
        "all 1 and all 4",
        b"(plant\n(dev 1\n(dev 2\n(dev 3\n)\n)\n(dev 4\n)\n)\n(dev 5\n)\n(mark 7\n(all 1)\n(all 4)\n)\n)\n",
    )?;
    outcome(
        rt,
        "own 1 and all 2",
        b"(plant\n(dev 1\n(dev 2\n(dev 3\n)\n)\n(dev 4\n)\n)\n(dev 5\n)\n(mark 7\n(own 1)\n(all 2)\n)\n)\n",
    )?;
    outcome(
        rt,
        "all 1 and own 5",
        b"(plant\n(dev 1\n(dev 2\n(dev 3\n)\n)\n(dev 4\n)\n)\n(dev 5\n)\n(mark 7\n(all 1)\n(own 5)\n)\n)\n",
    )?;
    outcome(rt, "no devices", b"(plant\n)\n")?;
    outcome(
        rt,
        "a mark without postings",
        b"(plant\n(mark 65535\n)\n)\n",
    )?;
    Ok(())
}

// 23: 32 tiers are taken and a 33rd is not; 22 comes before it.
fn deep(rt: &HostRuntime) -> io::Result<()> {
    tiers(
        rt,
        "32 tiers",
        b"(plant\n\
        (dev 0\n(dev 0\n(dev 0\n(dev 0\n(dev 0\n(dev 0\n(dev 0\n(dev 0\n\
        (dev 0\n(dev 0\n(dev 0\n(dev 0\n(dev 0\n(dev 0\n(dev 0\n(dev 0\n\
        (dev 0\n(dev 0\n(dev 0\n(dev 0\n(dev 0\n(dev 0\n(dev 0\n(dev 0\n\
        (dev 0\n(dev 0\n(dev 0\n(dev 0\n(dev 0\n(dev 0\n(dev 0\n(dev 0\n\
        )\n)\n)\n)\n)\n)\n)\n)\n)\n)\n)\n)\n)\n)\n)\n)\n\
        )\n)\n)\n)\n)\n)\n)\n)\n)\n)\n)\n)\n)\n)\n)\n)\n\
        )\n",
    )?;
    tiers(
        rt,
        "33 tiers",
        b"(plant\n\
        (dev 0\n(dev 0\n(dev 0\n(dev 0\n(dev 0\n(dev 0\n(dev 0\n(dev 0\n\
        (dev 0\n(dev 0\n(dev 0\n(dev 0\n(dev 0\n(dev 0\n(dev 0\n(dev 0\n\
        (dev 0\n(dev 0\n(dev 0\n(dev 0\n(dev 0\n(dev 0\n(dev 0\n(dev 0\n\
        (dev 0\n(dev 0\n(dev 0\n(dev 0\n(dev 0\n(dev 0\n(dev 0\n(dev 0\n\
        (dev 0\n\
        )\n)\n)\n)\n)\n)\n)\n)\n)\n)\n)\n)\n)\n)\n)\n)\n\
        )\n)\n)\n)\n)\n)\n)\n)\n)\n)\n)\n)\n)\n)\n)\n)\n\
        )\n)\n",
    )?;
    tiers(
        rt,
        "33 tiers, level 256",
        b"(plant\n\
        (dev 0\n(dev 0\n(dev 0\n(dev 0\n(dev 0\n(dev 0\n(dev 0\n(dev 0\n\
        (dev 0\n(dev 0\n(dev 0\n(dev 0\n(dev 0\n(dev 0\n(dev 0\n(dev 0\n\
        (dev 0\n(dev 0\n(dev 0\n(dev 0\n(dev 0\n(dev 0\n(dev 0\n(dev 0\n\
        (dev 0\n(dev 0\n(dev 0\n(dev 0\n(dev 0\n(dev 0\n(dev 0\n(dev 0\n\
        (dev 256\n\
        )\n)\n)\n)\n)\n)\n)\n)\n)\n)\n)\n)\n)\n)\n)\n)\n\
        )\n)\n)\n)\n)\n)\n)\n)\n)\n)\n)\n)\n)\n)\n)\n)\n\
        )\n)\n",
    )?;
    Ok(())
}

// Exactly enough room for plant P, and one place too few in each table.
fn rooms(rt: &HostRuntime) -> io::Result<()> {
    places(rt, "enough", [6, 6, 6, 2, 2, 3])?;
    places(rt, "last", [5, 6, 6, 2, 2, 3])?;
    places(rt, "root", [6, 5, 6, 2, 2, 3])?;
    places(rt, "level", [6, 6, 5, 2, 2, 3])?;
    places(rt, "terms", [6, 6, 6, 1, 2, 3])?;
    places(rt, "starts", [6, 6, 6, 2, 1, 3])?;
    places(rt, "postings", [6, 6, 6, 2, 2, 2])?;
    places(rt, "none", [0, 0, 0, 0, 0, 0])?;
    Ok(())
}

fn main(rt: HostRuntime) -> io::Result<()> {
    let rt = &rt;
    show(rt, "plant P", PLANT_P)?;
    show(
        rt,
        "plant P without its close",
        b"(plant\n(dev 120\n(dev 118\n(dev 255\n)\n)\n(dev 121\n(dev 90\n)\n(dev 119\n)\n)\n)\n(mark 7\n(all 2)\n(own 5)\n)\n(mark 9\n(all 4)\n)\n",
    )?;
    long(rt)?;
    not_forms(rt)?;
    out_of_range(rt)?;
    deep(rt)?;
    ends(rt)?;
    no_places(rt)?;
    falls(rt)?;
    redundant(rt)?;
    rooms(rt)?;
    Ok(())
}
