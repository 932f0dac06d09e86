// The tables of a case, and how they are printed.
use index::IndexTables;
use plant::DeviceTables;
use std::io;

// Device tables as a case writes them: the last devices, the roots and the level codes.
#[derive(Clone, Copy)]
pub struct Plant(pub &'static [u16], pub &'static [u16], pub &'static [u8]);

// An index: its terms, the starts of their lists and the postings.
#[derive(Clone, Copy)]
pub struct Index(pub &'static [u16], pub &'static [u32], pub &'static [u32]);

impl Plant {
    pub fn tables(self) -> DeviceTables<'static> {
        let Plant(last, root, level) = self;
        DeviceTables { last, root, level }
    }
}

pub const NONE: Plant = Plant(&[], &[], &[]);

pub const ONE: Plant = Plant(&[1], &[1], &[0]);

pub const TWO_ROOTS: Plant = Plant(&[1, 2], &[1, 2], &[0, 0]);

pub const CHAIN: Plant = Plant(&[3, 3, 3], &[1, 1, 1], &[0, 0, 0]);

// Document 01's plant P.
pub const P: Plant = Plant(
    &[6, 3, 3, 6, 5, 6],
    &[1, 1, 1, 1, 1, 1],
    &[120, 118, 255, 121, 90, 119],
);

// Prints a line: a name and the entries of a table.
pub fn print_table<R: Print>(rt: &R, name: &str, entries: &[u32]) -> io::Result<()> {
    print!(rt; "{name}")?;
    for entry in entries {
        print!(rt; " {entry}")?;
    }
    println!(rt; "")
}

// Writes plant P with these lists into 118 dots, as many bytes as its text has in document 01, and prints them.
pub fn print_p<R: Print>(
    rt: &R,
    terms: &[u16],
    starts: &[u32],
    postings: &[u32],
) -> io::Result<()> {
    let index = IndexTables {
        terms,
        starts,
        postings,
    };
    let mut out = [b'.'; 118];
    let _ = plant_writer::write(P.tables(), index, &mut out);
    rt.write_all(&out)
}

// Prints what comes of a case on plant P, with the text of what it leaves of these terms, and then what comes of each case of some groups.
pub fn print_cases<R: Print, C: Copy, F: Fn(&R, C) -> io::Result<(Vec<u32>, Vec<u32>)>>(
    rt: &R,
    first: C,
    terms: &[u16],
    groups: &[&[C]],
    print_case: F,
) -> io::Result<()>
    requires { F.IsAlwaysCallable print_case }
{
    let (starts, postings) = print_case(rt, first)?;
    print_p(rt, terms, &starts, &postings)?;
    for case in groups.iter().copied().flatten() {
        print_case(rt, *case)?;
    }
    Ok(())
}
