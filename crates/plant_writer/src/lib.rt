// Writes plant text from accepted tables.
#![tactic(auto)]

mod lengths;
mod put;
mod tiers;

ghost use Rattle.std.specs.Prelude.{◌≡◌, length};
ghost use Rattle.plant.specs.Tables.{plant_of};
ghost use Rattle.index.specs.Tables.{index_of};
ghost use Rattle.written_text.specs.Refusals.{too_long, write_refusal};
ghost use Rattle.written_text.specs.RoundTrip.{RoundTrips};
ghost use Rattle.plant_writer.specs.Write.{written_number, written_length, length_of, outcome_of, text_after};

use index::IndexTables;
use lengths::text_length;
use plant::DeviceTables;
use put::put_plant;
use refusal::Refusal;
use tiers::too_deep;

// Writes the text of a plant and its index to the front of the buffer, and gives its length. What is behind it stays, and so does all where the
// text is refused.
pub fn write(plant: DeviceTables, index: IndexTables, text: &mut [u8]) -> Result<usize, Refusal>
    ensures outcome { result ≡ outcome_of (plant_of plant.entry) (index_of index.entry) (length text.old) }
    ensures text { text.new ≡ text_after (plant_of plant.entry) (index_of index.entry) text.old }
    ensures number { written_number result ≡ write_refusal (plant_of plant.entry) (index_of index.entry) (length text.old) }
    ensures long { written_length result ≡ length_of (plant_of plant.entry) (index_of index.entry) (length text.old) }
    ensures trips { RoundTrips (plant_of plant.entry) (index_of index.entry) (length text.old) }
{
    index_check::check(plant, index)?;
    let n = text_length(plant.level, index);
    if too_deep(plant.last, 0, plant.last.len(), 0) {
        return Err(Refusal::TooManyTiers);
    }
    if too_long(text.len(), n) {
        return Err(Refusal::TextTooLong);
    }
    Ok(put_plant(text, plant, index))
}

// Whether a text of n bytes is too long for a buffer of `room` bytes, or for plant text.
fn too_long(room: usize, n: usize) -> bool
    ensures { result ≡ too_long room n }
{
    room < n || 65_536 < n
}
