// Document 01's table of refusals, and document 02's numbers for a second store, row by row and by the words, with no care for speed.
use crate::queries::used;
use crate::tables::{carries, device, is_shared, last_of, list, root_of};
use index::IndexTables;
use plant::DeviceTables;
use query::{Levels, Query};
use two_indexes::TwoIndexes;

// 1: lengths that differ
fn uneven(plant: DeviceTables<'_>) -> bool {
    plant.root.len() != plant.last.len() || plant.level.len() != plant.last.len()
}

// 2: a last below its device or above N
fn bad_last(plant: DeviceTables<'_>) -> bool {
    let n = plant.last.len();
    (1..=n).any(|d| last_of(plant, d) < d || n < last_of(plant, d))
}

// Whether the branch of device e holds device d.
fn holds(plant: DeviceTables<'_>, e: usize, d: usize) -> bool {
    0 < e && e <= d && d <= last_of(plant, e)
}

// 3: branches overlap, neither holding the other
fn overlap(plant: DeviceTables<'_>) -> bool {
    let n = plant.last.len();
    let parts = |d: usize, e: usize| d < e && last_of(plant, d) < last_of(plant, e);
    (1..=n).any(|d| (1..=n).any(|e| holds(plant, d, e) && parts(d, e)))
}

// 4: a root that is wrong: it does not hold the device, or a lower device does
fn bad_root(plant: DeviceTables<'_>) -> bool {
    let n = plant.last.len();
    (1..=n).any(|d| {
        let root = root_of(plant, d);
        !holds(plant, root, d) || (1..root).any(|e| holds(plant, e, d))
    })
}

// 6: a mark out of range or not rising
fn bad_term(index: IndexTables<'_>) -> bool {
    index.terms.contains(&0) || !index.terms.is_sorted_by(|a, b| a < b)
}

// 7: first start not 0, a start that falls or passes the postings
fn bad_start(index: IndexTables<'_>) -> bool {
    let Some(&first) = index.starts.first() else {
        return !index.postings.is_empty();
    };
    let end = index.postings.len();
    first != 0 || !index.starts.is_sorted() || index.starts.iter().any(|&s| end < s as usize)
}

// Whether something holds of one of the lists.
fn any_list<F: Fn(&[u32]) -> bool>(index: IndexTables<'_>, test: F) -> bool
    requires { F.IsAlwaysCallable test }
{
    (0..index.starts.len()).any(|k| test(list(index, k)))
}

// 8: a posting's device 0, above N, or not rising in its list
fn bad_posting(plant: DeviceTables<'_>, index: IndexTables<'_>) -> bool {
    let n = plant.last.len();
    any_list(index, |list| {
        list.iter().any(|&p| device(p) == 0 || n < device(p))
            || !list.is_sorted_by(|&p, &q| device(p) < device(q))
    })
}

// 9: a redundant posting, for a shared one of a lower device in the same list
fn redundant(plant: DeviceTables<'_>, index: IndexTables<'_>) -> bool {
    any_list(index, |list| {
        list.iter().any(|&p| {
            let lower = |q: u32| is_shared(q) && device(q) < device(p);
            list.iter()
                .any(|&q| lower(q) && carries(plant, q, device(p)))
        })
    })
}

// 15: a mark in the wrong store: the second is for marks from 32,768 up, the first keeps those below
fn is_misfiled(indexes: TwoIndexes<'_>) -> bool {
    let TwoIndexes { first, second } = indexes;
    first.terms.iter().any(|&t| 32768 <= t) || second.terms.iter().any(|&t| t < 32768)
}

// 11: a used mark outside 1..65,535
fn bad_use(query: Query) -> bool {
    let is_bad = |terms: &[u32]| terms.iter().any(|&t| t == 0 || 65535 < t);
    is_bad(used(&query.required)) || is_bad(used(&query.forbidden))
}

// 12: a window with low above high, or high above 254; by document 02 also a low of 0
fn bad_range(levels: Levels) -> bool {
    match levels {
        Levels::Any | Levels::TrueOnly => false,
        Levels::Range(low, high) => high < low || 254 < high || low == 0,
    }
}

// The refusal, if any: the first row that applies, in the order in which rows are tested. 55 to 59 are rows 5 to 9 for the second store.
pub fn refusal(
    plant: DeviceTables<'_>,
    indexes: TwoIndexes<'_>,
    query: Query,
    room: usize,
) -> Option<u32> {
    let TwoIndexes { first, second } = indexes;
    let n = plant.last.len();
    let start = query.start as usize;
    let rows = [
        (1, uneven(plant)),
        (2, bad_last(plant)),
        (3, overlap(plant)),
        (4, bad_root(plant)),
        (5, first.terms.len() != first.starts.len()),
        (6, bad_term(first)),
        (7, bad_start(first)),
        (8, bad_posting(plant, first)),
        (9, redundant(plant, first)),
        (55, second.terms.len() != second.starts.len()),
        (56, bad_term(second)),
        (57, bad_start(second)),
        (58, bad_posting(plant, second)),
        (59, redundant(plant, second)),
        (15, is_misfiled(indexes)),
        (10, 8 < query.required.count || 8 < query.forbidden.count),
        (11, bad_use(query)),
        (12, bad_range(query.levels)),
        (13, start == 0 || n + 1 < start),
        (14, room < n),
    ];
    let applied = rows.iter().find(|(_, applies)| *applies)?;
    Some(applied.0)
}
