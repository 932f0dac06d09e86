// The index of a plant: reads of a posting, the list of a term, and the forward step.
#![tactic(auto)]

mod forward;
mod list;
mod postings;

pub use forward::{Step, first_at_least, seek};
pub use list::{IndexTables, clear, fill_from, list_at, list_of, number_of, start_at};
pub use postings::{device_of, reach_by, reach_of};
