// The slow evaluator: writes every list out unshared, and tests every device.
use crate::queries::{used, wants};
use crate::tables::{device, level_of, list_in, reach};
use plant::DeviceTables;
use query::Query;
use std::alloc::{AllocError, Global};
use two_indexes::TwoIndexes;

// Whether device d stands in a list that is written out.
fn is_written(plant: DeviceTables<'_>, list: &[u32], d: usize) -> bool {
    list.iter().any(|&posting| (device(posting)..=reach(plant, posting)).any(|e| e == d))
}

// Whether device d is in every required list and in no forbidden one, at a level that the query wants.
fn matches(plant: DeviceTables<'_>, indexes: TwoIndexes<'_>, query: Query, d: usize) -> bool {
    let has = |term: u32| is_written(plant, list_in(indexes, term), d);
    used(&query.required).iter().all(|&term| has(term))
        && !used(&query.forbidden).iter().any(|&term| has(term))
        && wants(query.levels, level_of(plant, d))
}

// The devices that match, from the start of the query on.
pub fn listing(
    alloc: Global,
    plant: DeviceTables<'_>,
    indexes: TwoIndexes<'_>,
    query: Query,
) -> Result<Vec<usize>, AllocError> {
    (query.start as usize..=plant.last.len())
        .filter(|&d| matches(plant, indexes, query, d))
        .collect(alloc)
}
