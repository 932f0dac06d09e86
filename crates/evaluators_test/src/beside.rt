// The slow evaluator beside an answer.
use crate::slow::listing;
use index::IndexTables;
use plant::DeviceTables;
use std::alloc::{AllocError, Global};
use std::io;
use two_indexes::TwoIndexes;

// Reads both texts, and lists the devices that match. None where a text is refused.
pub fn listing_of_texts(
    alloc: Global,
    plant: &[u8],
    query: &[u8],
) -> Result<Option<Vec<usize>>, AllocError> {
    let mut last = [0; 16];
    let mut root = [0; 16];
    let mut level = [0; 16];
    let mut terms = [0; 16];
    let mut starts = [0; 16];
    let mut postings = [0; 32];
    let made = plant_text::read(
        plant,
        &mut last,
        &mut root,
        &mut level,
        &mut terms,
        &mut starts,
        &mut postings,
    );
    let (Ok(counts), Ok(query)) = (made, query_text::read(query)) else {
        return Ok(None);
    };
    let plant = DeviceTables {
        last: front(&last, counts.devices),
        root: front(&root, counts.devices),
        level: front(&level, counts.devices),
    };
    let first = IndexTables {
        terms: front(&terms, counts.terms),
        starts: front(&starts, counts.terms),
        postings: front(&postings, counts.postings),
    };
    let second = IndexTables {
        terms: &[],
        starts: &[],
        postings: &[],
    };
    let listed = listing(alloc, plant, TwoIndexes { first, second }, query)?;
    Ok(Some(listed))
}

// The first n entries of a table, or all of it.
fn front<T>(table: &[T], n: usize) -> &[T] {
    table.get(..n).unwrap_or(table)
}

// Prints the devices of a listing.
pub fn print<R: Print>(rt: &R, listed: &[usize]) -> io::Result<()> {
    print!(rt; "slow:")?;
    for d in listed {
        print!(rt; " {d}")?;
    }
    print!(rt; "\n\n")
}

// Whether an answer begins with the device lines of a listing, and the place comes next.
pub fn agrees(alloc: Global, answer: &[u8], listed: &[usize]) -> Result<bool, AllocError> {
    let mut text = String::from_str(alloc, "(answer\n")?;
    for d in listed {
        writeln!(text, "(device {d})")?;
    }
    text.push_str("(place ")?;
    Ok(answer.starts_with(text.as_bytes()))
}
