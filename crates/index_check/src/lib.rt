// The check of device tables and an index. In a pass's contract `[]` stands for a table that its row does not read, and the starts stand for
// the terms where only their number counts.
#![tactic(auto)]

ghost use Rattle.std.specs.Prelude.{IfOk, ℕ, ◌≡◌, ◌||◌, [], length};
ghost use Rattle.laws.specs.Limits.{highest_term};
ghost use Rattle.laws.specs.Rows.{otherwise};
ghost use Rattle.laws.specs.Search.{any};
ghost use Rattle.laws.specs.inner.Entries.{IsEntry};
ghost use Rattle.refusal.specs.Numbers.{row_or, refused};
ghost use Rattle.plant.specs.Tables.{plant_of};
ghost use Rattle.index.specs.Postings.{device, reach, outside, not_rising, misplaced};
ghost use Rattle.index.specs.Index.{index, wrong_start, stray, misplaced_in, outline_rows, index_rows, tables_refusal};
ghost use Rattle.index.specs.Tables.{index_of};
ghost use Rattle.index_check.specs.inner.Faults.{faulty, faulty_in};

use index::{IndexTables, device_of, reach_of};
use plant::{Branches, DeviceTables};
use refusal::{IndexRow, Refusal};

// The refusal with the lowest number that applies to the device tables and the index.
pub fn check<'a>(plant: DeviceTables<'a>, index: IndexTables) -> Result<Branches<'a>, Refusal>
    ensures refusal { refused result ≡ tables_refusal (plant_of plant.entry) (index_of index.entry) }
    ensures branches { IfOk result (λ branches. branches.last.now ≡ plant.entry.last.now) }
{
    let branches = plant::check(plant)?;
    rows(branches, index).map_err(Refusal::Index)?;
    Ok(branches)
}

// The same of two indexes over the device tables: where nothing applies to the first, the rows for the second, numbered from 55 on.
pub fn check_both<'a>(
    plant: DeviceTables<'a>,
    first: IndexTables,
    second: IndexTables,
) -> Result<Branches<'a>, Refusal>
    ensures branches { IfOk result (λ branches. branches.last.now ≡ plant.entry.last.now) }
    ensures refusal { refused result ≡ otherwise
        (tables_refusal (plant_of plant.entry) (index_of first.entry))
        (index_rows 55 plant.entry.last.now (index_of second.entry)) }
{
    let branches = check(plant, first)?;
    rows(branches, second).map_err(Refusal::SecondIndex)?;
    Ok(branches)
}

// The first of an index's own rows that applies, over device tables that are accepted. Of an index that is accepted each posting is read once.
fn rows(branches: Branches, index: IndexTables) -> Result<(), IndexRow>
    ensures { (first : ℕ) → row_or first 0 result ≡ index_rows first branches.entry.last.now (index_of index.entry) }
{
    outline_row(index)?;
    if !any_fault(branches, index) {
        return Ok(());
    }
    if any_misplaced(branches.last.len(), index) {
        return Err(IndexRow::MisplacedPosting);
    }
    Err(IndexRow::RedundantPosting)
}

// Which of the three rows applies that say where lists lie.
pub fn outline_row(index: IndexTables) -> Result<(), IndexRow>
    ensures { (first rest : ℕ) → row_or first rest result ≡ outline_rows first (index_of index.entry) rest }
{
    let IndexTables {
        terms,
        starts,
        postings,
    } = index;
    if starts.len() != terms.len() || 8_192 < terms.len() || 1_048_576 < postings.len() {
        return Err(IndexRow::Unfit);
    }
    if any_misplaced_term(terms) {
        return Err(IndexRow::MisplacedTerm);
    }
    if any_wrong_start(starts, postings) {
        return Err(IndexRow::WrongStart);
    }
    Ok(())
}

// Whether a term is out of range or not above the one before it. No term is above 65,535.
fn any_misplaced_term(terms: &[u16]) -> bool
    ensures { result ≡ any (length terms.now) (misplaced highest_term (λ t. t) terms.now) }
{
    let mut before = 0;
    for &term in terms {
        if term <= before {
            return true;
        }
        before = term;
    }
    false
}

// Whether the starts do not go from 0 up to at most the number of postings, or there are postings and no starts. Goes from the last
// start down.
fn any_wrong_start(starts: &[u32], postings: &[u32]) -> bool
    ensures { result ≡ (any (length starts.now) (wrong_start (index [] starts.now postings.now))
        || stray (index starts.now starts.now postings.now)) }
{
    let mut next = postings.len();
    for &start in starts.iter().rev() {
        let start = start as usize;
        if next < start {
            return true;
        }
        next = start;
    }
    next != 0
}

// Whether a list has a posting that is misplaced or redundant: the one pass over an index that is accepted.
fn any_fault(branches: Branches, index: IndexTables) -> bool
    ensures { result ≡ any (length index.entry.starts.now) (faulty_in branches.entry.last.now (index_of index.entry)) }
{
    (0..index.starts.len()).any(|i| fault_in(branches, index.list_at(i + 1)))
}

// Whether a posting of a list is misplaced or redundant. What a posting reaches is never below its own device: one comparison with what the one
// before it reaches serves both.
fn fault_in(branches: Branches, list: &[u32]) -> bool
    ensures { result ≡ faulty branches.entry.last.now list.now }
{
    let mut reached = 0;
    for &posting in list {
        let d = device_of(posting);
        if d <= reached || branches.last.len() < d {
            return true;
        }
        reached = reach_of(branches, posting);
    }
    false
}

// Whether a list has a posting whose device is not among 1 to `most`, or does not rise.
fn any_misplaced(most: usize, index: IndexTables) -> bool
    ensures { result ≡ any (length index.entry.starts.now) (misplaced_in most (index_of index.entry)) }
{
    (0..index.starts.len()).any(|i| misplaced_in(most, index.list_at(i + 1)))
}

// Whether a posting's device is not among 1 to `most`, or not above the one before it.
fn misplaced_in(most: usize, list: &[u32]) -> bool
    ensures { result ≡ any (length list.now) (misplaced most device list.now) }
{
    outside_in(most, list) || unordered_in(list)
}

// Whether a posting's device is not among 1 to `most`.
pub fn outside_in(most: usize, list: &[u32]) -> bool
    ensures { result ≡ any (length list.now) (outside most device list.now) }
{
    list.iter().any(|&posting| {
        let d = device_of(posting);
        d == 0 || most < d
    })
}

// Whether a posting's device is not above the one before it.
fn unordered_in(list: &[u32]) -> bool
    ensures { result ≡ any (length list.now) (not_rising device list.now) }
{
    !list.is_sorted_by(|a, b| device_of(*a) < device_of(*b))
}
