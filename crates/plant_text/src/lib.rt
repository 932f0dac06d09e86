// Reads plant text into lent tables.
#![tactic(auto)]

ghost use Rattle.std.specs.Prelude.{◌≡◌};
ghost use Rattle.plant.specs.Plant.{plant};
ghost use Rattle.index.specs.Index.{index};
ghost use Rattle.plant_text.specs.PlantText.{
  outcome_number,
  outcome_values,
  read_number,
  read_values,
  read_into,
  outcome_after,
  plant_after,
  index_after,
};
ghost use Rattle.plant_text.specs.inner.Rest.{Bounded};
ghost use Rattle.plant_text.specs.inner.Devices.{Fits};
ghost use Rattle.plant_text.specs.inner.Terms.{FitsIndex};
ghost use Rattle.plant_text.specs.inner.Whole.{ReadAll};

use crate::devices::devices;
use crate::lines::{PLANT, Place, check_kind, line_at};
use crate::terms::read_terms;
use index::fill_from;
use refusal::Refusal;
use text::Refused;

mod common;
mod devices;
mod lines;
mod terms;

// How many devices, terms and postings the lent tables have places for.
#[derive(Clone, Copy, Debug, PartialEq, Eq)]
pub struct Room {
    pub devices: usize,
    pub terms: usize,
    pub postings: usize,
}

// How many devices, terms and postings a text makes.
#[derive(Clone, Copy, Debug, PartialEq, Eq)]
pub struct Counts {
    pub devices: usize,
    pub terms: usize,
    pub postings: usize,
}

// Reads a text into the tables. What is beyond the counts is 0, and so is all where the text is refused.
// Kept: six tables one by one, here and below (`plant_search_read_plant` lends six): a struct of `&mut` asks of each function that it keeps each loan.
pub fn read(
    text: &[u8],
    last: &mut [u16],
    root: &mut [u16],
    level: &mut [u8],
    terms: &mut [u16],
    starts: &mut [u32],
    postings: &mut [u32],
) -> Result<Counts, Refused>
    ensures outcome { result ≡ outcome_after text.now
        (plant last.old root.old level.old)
        (index terms.old starts.old postings.old) }
    ensures plant { plant last.new root.new level.new
        ≡ plant_after text.now
        (plant last.old root.old level.old)
        (index terms.old starts.old postings.old) }
    ensures index { index terms.new starts.new postings.new
        ≡ index_after text.now
        (plant last.old root.old level.old)
        (index terms.old starts.old postings.old) }
    ensures number { outcome_number result ≡ read_number (read_into text.now
        (plant last.old root.old level.old)
        (index terms.old starts.old postings.old)) }
    ensures values { outcome_values result ≡ read_values (read_into text.now
        (plant last.old root.old level.old)
        (index terms.old starts.old postings.old)) }
{
    let room = Room {
        devices: last.len().min(root.len()).min(level.len()).min(65_535),
        terms: terms.len().min(starts.len()).min(8_192),
        postings: postings.len().min(1_048_576),
    };
    let made = read_all(text, room, last, root, level, terms, starts, postings);
    let counts = made.unwrap_or(Counts {
        devices: 0,
        terms: 0,
        postings: 0,
    });
    fill_from(last, counts.devices, 0);
    fill_from(root, counts.devices, 0);
    fill_from(level, counts.devices, 0);
    fill_from(terms, counts.terms, 0);
    fill_from(starts, counts.terms, 0);
    fill_from(postings, counts.postings, 0);
    made
}

// Reads a text into the tables, and leaves what is beyond the counts.
fn read_all(
    text: &[u8],
    room: Room,
    last: &mut [u16],
    root: &mut [u16],
    level: &mut [u8],
    terms: &mut [u16],
    starts: &mut [u32],
    postings: &mut [u32],
) -> Result<Counts, Refused>
    requires bounded { Bounded room }
    requires fits { Fits room (plant last.old root.old level.old) }
    requires fits_index { FitsIndex room (index terms.old starts.old postings.old) }
    ensures reads { ReadAll room text.now
        (plant last.new root.new level.new)
        (index terms.new starts.new postings.new)
        result }
{
    if 65_536 < text.len() {
        return Err(Refused {
            line: 0,
            refusal: Refusal::PlantTooLong,
        });
    }
    let first = line_at(text, 0);
    check_kind(PLANT, first.form.kind, 1)?;
    let begin = Place {
        at: first.next,
        count: 0,
        line: 2,
    };
    let (form, stop) = devices(text, room, begin, 0, None, last, root, level)?;
    let (count, end) = read_terms(text, room, form, stop, last, terms, starts, postings)?;
    if end.at < text.len() {
        return Err(Refused {
            line: end.line,
            refusal: Refusal::BytesAfterPlant,
        });
    }
    Ok(Counts {
        devices: stop.count,
        terms: count,
        postings: end.count,
    })
}
