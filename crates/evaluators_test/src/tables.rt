// What the evaluators read in lent tables, with functions of their own: none of those that the libraries have.
use index::IndexTables;
use plant::DeviceTables;
use two_indexes::TwoIndexes;

// The entry of device d.
fn entry<T: Copy>(table: &[T], d: usize) -> Option<T> {
    table.get(d.checked_sub(1)?).copied()
}

// What a device that is not there has is 0.
pub fn last_of(plant: DeviceTables<'_>, d: usize) -> usize {
    entry(plant.last, d).map_or(0, |last| usize::from(last))
}

pub fn root_of(plant: DeviceTables<'_>, d: usize) -> usize {
    entry(plant.root, d).map_or(0, |root| usize::from(root))
}

pub fn level_of(plant: DeviceTables<'_>, d: usize) -> u32 {
    entry(plant.level, d).map_or(0, |code| u32::from(code))
}

// The device of a posting.
pub fn device(posting: u32) -> usize {
    (posting / 2) as usize
}

pub fn is_shared(posting: u32) -> bool {
    posting % 2 == 1
}

// The last device that a posting carries its term to.
pub fn reach(plant: DeviceTables<'_>, posting: u32) -> usize {
    let d = device(posting);
    if is_shared(posting) {
        last_of(plant, d)
    } else {
        d
    }
}

// Whether a posting carries its term to device d.
pub fn carries(plant: DeviceTables<'_>, posting: u32, d: usize) -> bool {
    device(posting) <= d && d <= reach(plant, posting)
}

// List k: from its start to the next one, or to the end of the postings.
pub fn list<'a>(index: IndexTables<'a>, k: usize) -> &'a [u32] {
    let end = index.postings.len();
    let (from, to) = match index.starts.get(k..) {
        Some([from, to, ..]) => (*from as usize, *to as usize),
        Some([from]) => (*from as usize, end),
        _ => (end, end),
    };
    index.postings.get(from..to).unwrap_or(&[])
}

// The list of a term, where the index has the term.
fn list_of<'a>(index: IndexTables<'a>, term: u32) -> Option<&'a [u32]> {
    let k = index.terms.iter().position(|&t| u32::from(t) == term)?;
    Some(list(index, k))
}

// The list of a term in either index. Where the refusals let two pass, each term stands in one of them alone.
pub fn list_in<'a>(indexes: TwoIndexes<'a>, term: u32) -> &'a [u32] {
    list_of(indexes.first, term)
        .or(list_of(indexes.second, term))
        .unwrap_or(&[])
}
