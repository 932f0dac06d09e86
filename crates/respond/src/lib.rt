// The whole of what the program prints, as a function of the two texts that it reads.
#![tactic(auto)]

mod write;

ghost use Rattle.plant.specs.Tables.{plant_of};
ghost use Rattle.index.specs.Tables.{index_of};
ghost use Rattle.query_text.specs.QueryText as query_texts;
ghost use Rattle.respond.specs.inner.Prints.{Prints};
ghost use Rattle.respond.specs.Respond.{of_search, of_query_text, Responds};

use index::IndexTables;
use plant::DeviceTables;
use query::Query;
use text::Refused;
use two_indexes::TwoIndexes;
use write::{put_answer, put_numbered, put_numbered_twice};

// Writes the answer to a query text over a plant text, or why one of them is refused, at the front of the buffer. Returns how many bytes.
pub fn respond(plant: &[u8], query: &[u8], out: &mut [u8; 16384]) -> usize
    ensures { Responds plant.now query.now out.old out.new result }
{
    let mut last = [0u16; 1024];
    let mut root = [0u16; 1024];
    let mut level = [0u8; 1024];
    let mut terms = [0u16; 256];
    let mut starts = [0u32; 256];
    let mut postings = [0u32; 4096];
    match plant_text::read(
        plant,
        &mut last,
        &mut root,
        &mut level,
        &mut terms,
        &mut starts,
        &mut postings,
    ) {
        Err(Refused { refusal, line }) => {
            put_numbered_twice(out, 0, b"(refused plant ", refusal.number(), line)
        }
        Ok(counts) => {
            let plant = DeviceTables {
                last: &last[..counts.devices],
                root: &root[..counts.devices],
                level: &level[..counts.devices],
            };
            let index = IndexTables {
                terms: &terms[..counts.terms],
                starts: &starts[..counts.terms],
                postings: &postings[..counts.postings],
            };
            respond_query(plant, index, query, out)
        }
    }
}

// The answer to a query text over tables that a plant text made.
fn respond_query(plant: DeviceTables, index: IndexTables, query: &[u8], out: &mut [u8]) -> usize
    ensures { Prints out.old
        (of_query_text (plant_of plant.entry) (index_of index.entry) (query_texts.read_query query.now))
        out.new result }
{
    match query_text::read(query) {
        Err(Refused { refusal, line }) => {
            put_numbered_twice(out, 0, b"(refused ask ", refusal.number(), line)
        }
        Ok(query) => respond_search(plant, index, query, out),
    }
}

// The answer to a query over tables and their one index: the second is handed in empty.
fn respond_search(plant: DeviceTables, index: IndexTables, query: Query, out: &mut [u8]) -> usize
    ensures { Prints out.old (of_search (plant_of plant.entry) (index_of index.entry) query) out.new result }
{
    let mut listing = [0u16; 1024];
    let none = IndexTables {
        terms: &index.terms[..0],
        starts: &index.starts[..0],
        postings: &index.postings[..0],
    };
    let indexes = TwoIndexes {
        first: index,
        second: none,
    };
    match search::search(plant, indexes, query, &mut listing) {
        Err(refusal) => put_numbered(out, 0, b"(refused query ", refusal.number()),
        Ok(a) => {
            let listed = &listing[..a.count as usize];
            put_answer(out, listed, a.position, a.passed, a.moves)
        }
    }
}
