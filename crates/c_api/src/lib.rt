// The operations for programs in C and Rust: numbers and slices only, each with the contract of the operation that it hands on.
// include/plant_search.h declares them.
#![tactic(auto)]

ghost use Rattle.std.specs.Prelude.{◌≡◌};
ghost use Rattle.plant.specs.Plant.{plant};
ghost use Rattle.index.specs.Index.{index, tables_refusal};
ghost use Rattle.two_indexes.specs.Indexes.{indexes};
ghost use Rattle.query_text.specs.QueryText.{read_query};
ghost use Rattle.respond.specs.Respond.{Responds};
ghost use Rattle.c_api.specs.Handing.{levels_of, query_of, query_numbers};
ghost use Rattle.c_api.specs.Interface.{SearchHanded, PlantHanded, TextHanded, RepairHanded, TightenHanded};

use handing::{
    answer_numbers, line_of, outcome_numbers, query_numbers, query_of, refusal_of, repaired_numbers,
};
use index::IndexTables;
use plant::DeviceTables;
use query::Query;
use refusal::number_or_zero;
use two_indexes::TwoIndexes;

mod handing;

// The lowest of refusals 1 to 9 that applies to the tables and the index, or 0.
#[unsafe(no_mangle)]
pub extern "C" fn plant_search_check(
    last: &[u16],
    root: &[u16],
    level: &[u8],
    terms: &[u16],
    starts: &[u32],
    postings: &[u32],
) -> u32
    ensures { result ≡ tables_refusal
        (plant last.now root.now level.now)
        (index terms.now starts.now postings.now) }
{
    let plant = DeviceTables { last, root, level };
    let index = IndexTables {
        terms,
        starts,
        postings,
    };
    number_or_zero(&index_check::check(plant, index))
}

// Searches two indexes for the devices that carry all required terms and no forbidden one. Any level code is wanted where `levels` is 0, true
// levels only where it is 1, else those of a range. The listing goes to the front of `out`; `numbers` is set to the number of devices listed, the
// position, the postings passed over and the moves.
#[unsafe(no_mangle)]
pub extern "C" fn plant_search_search<'a>(
    last: &[u16],
    root: &[u16],
    level: &[u8],
    terms: &[u16],
    starts: &[u32],
    postings: &'a [u32],
    second_terms: &[u16],
    second_starts: &[u32],
    second_postings: &'a [u32],
    required: &[u32],
    forbidden: &[u32],
    levels: u32,
    low: u32,
    high: u32,
    start: u32,
    budget: u32,
    out: &mut [u16],
    numbers: &mut [u32; 4],
) -> u32
    ensures { SearchHanded
        (plant last.now root.now level.now)
        (indexes
        (index terms.now starts.now postings.now)
        (index second_terms.now second_starts.now second_postings.now))
        (query_of required.now forbidden.now (levels_of levels low high) start budget)
        out.old out.new numbers.new result }
{
    let plant = DeviceTables { last, root, level };
    let first = IndexTables {
        terms,
        starts,
        postings,
    };
    let second = IndexTables {
        terms: second_terms,
        starts: second_starts,
        postings: second_postings,
    };
    let indexes = TwoIndexes { first, second };
    let query = query_of(required, forbidden, levels, low, high, start, budget);
    let found = search::search(plant, indexes, query, out);
    *numbers = answer_numbers(found);
    number_or_zero(&found)
}

// Reads plant text into the tables: the refusal, and in `numbers` its line and the numbers of devices, terms and postings. What is beyond those
// is 0, and so is all where the text is refused.
#[unsafe(no_mangle)]
pub extern "C" fn plant_search_read_plant(
    text: &[u8],
    last: &mut [u16],
    root: &mut [u16],
    level: &mut [u8],
    terms: &mut [u16],
    starts: &mut [u32],
    postings: &mut [u32],
    numbers: &mut [usize; 4],
) -> u32
    ensures { PlantHanded text.now
        (plant last.old root.old level.old)
        (index terms.old starts.old postings.old)
        (plant last.new root.new level.new)
        (index terms.new starts.new postings.new)
        numbers.new result }
{
    let read = plant_text::read(text, last, root, level, terms, starts, postings);
    *numbers = outcome_numbers(read);
    refusal_of(&read)
}

// Writes the text of the tables to the front of `text`: the refusal, and in `numbers` the length written. What is behind it stays, and so does all
// where the text is refused.
#[unsafe(no_mangle)]
pub extern "C" fn plant_search_write_plant(
    last: &[u16],
    root: &[u16],
    level: &[u8],
    terms: &[u16],
    starts: &[u32],
    postings: &[u32],
    text: &mut [u8],
    numbers: &mut [usize; 1],
) -> u32
    ensures { TextHanded
        (plant last.now root.now level.now)
        (index terms.now starts.now postings.now)
        text.old text.new numbers.new result }
{
    let plant = DeviceTables { last, root, level };
    let index = IndexTables {
        terms,
        starts,
        postings,
    };
    let written = plant_writer::write(plant, index, text);
    *numbers = [written.unwrap_or(0)];
    number_or_zero(&written)
}

// Repairs the lists of an index: the refusal, and in `numbers` how many postings were dropped and how many are left. What is dropped goes to the
// front of `report`; what is behind it stays, and so does all where the index is refused.
#[unsafe(no_mangle)]
pub extern "C" fn plant_search_repair(
    last: &[u16],
    root: &[u16],
    level: &[u8],
    terms: &[u16],
    starts: &mut [u32],
    postings: &mut [u32],
    report: &mut [u32],
    numbers: &mut [usize; 2],
) -> u32
    ensures { RepairHanded
        (plant last.now root.now level.now)
        (index terms.now starts.old postings.old)
        report.old starts.new postings.new report.new numbers.new result }
{
    let plant = DeviceTables { last, root, level };
    let repaired = repair::repair(plant, terms, starts, postings, report);
    *numbers = repaired_numbers(repaired);
    number_or_zero(&repaired)
}

// Tightens each list of an index in its own room: it becomes the smallest with which the same devices carry its term. `numbers` is set to how
// many postings are left.
#[unsafe(no_mangle)]
pub extern "C" fn plant_search_tighten(
    last: &[u16],
    root: &[u16],
    level: &[u8],
    terms: &[u16],
    starts: &mut [u32],
    postings: &mut [u32],
    numbers: &mut [usize; 1],
) -> u32
    ensures { TightenHanded
        (plant last.now root.now level.now)
        (index terms.now starts.old postings.old)
        starts.new postings.new numbers.new result }
{
    let plant = DeviceTables { last, root, level };
    let tightened = tighten::tighten(plant, terms, starts, postings);
    *numbers = [tightened.unwrap_or(0)];
    number_or_zero(&tightened)
}

// Reads query text: the refusal, the terms in eight places each, and the other numbers of the query. A refusal gives the empty query.
#[unsafe(no_mangle)]
pub extern "C" fn plant_search_read_query(
    text: &[u8],
    required: &mut [u32; 8],
    forbidden: &mut [u32; 8],
    numbers: &mut [usize; 8],
) -> u32
    ensures refusal { result ≡ (read_query text.now).refusal }
    ensures required { required.new ≡ (read_query text.now).query.required.places }
    ensures forbidden { forbidden.new ≡ (read_query text.now).query.forbidden.places }
    ensures numbers { numbers.new ≡ query_numbers (read_query text.now) }
{
    let asked = query_text::read(text);
    let query = asked.unwrap_or(Query::empty());
    let first = query.required.places;
    let second = query.forbidden.places;
    *required = first;
    *forbidden = second;
    *numbers = query_numbers(line_of(&asked), query);
    refusal_of(&asked)
}

// What the program prints for a plant text and a query text, at the front of `out`, whose other bytes are kept. Returns how many bytes.
#[unsafe(no_mangle)]
pub extern "C" fn plant_search_respond(plant: &[u8], query: &[u8], out: &mut [u8; 16384]) -> usize
    ensures { Responds plant.now query.now out.old out.new result }
{
    respond::respond(plant, query, out)
}
