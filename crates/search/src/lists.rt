// The run of an accepted query: its lists are looked up, and the cursors go along them.
ghost use Rattle.std.specs.Prelude.{◌≡◌, ◌+◌, ◌≤◌, ◌++◌, length};
ghost use Rattle.plant.specs.Tables.{plant_of};
ghost use Rattle.two_indexes.specs.Indexes.{list_of};
ghost use Rattle.two_indexes.specs.Tables.{indexes_of};
ghost use Rattle.two_indexes.specs.inner.Rising.{Rise};
ghost use Rattle.search.specs.inner.Cursors.{most_cursors, Gathers, RunGives};
ghost use Rattle.search.specs.Answer.{search_refusal, ended};

use crate::Answer;
use crate::run::run;
use plant::DeviceTables;
use query::Query;
use two_indexes::TwoIndexes;

// Puts the lists of some required terms into `lists`, and after them those of some forbidden ones.
fn gather<'a>(
    indexes: TwoIndexes<'a>,
    required: &[u32],
    forbidden: &[u32],
    lists: &mut [&'a [u32]; 16],
)
    requires few { length required.now + length forbidden.now ≤ most_cursors }
    requires rise { Rise indexes.first.terms.now × Rise indexes.second.terms.now }
    ensures { Gathers (list_of (indexes_of indexes.entry)) (required.now ++ forbidden.now) lists.new }
{
    for (i, &term) in required.iter().chain(forbidden).enumerate() {
        lists[i] = indexes.list_of(term);
    }
}

// The run of a query that is not refused.
pub fn answered(plant: DeviceTables, indexes: TwoIndexes, query: Query, out: &mut [u16]) -> Answer
    requires { search_refusal (plant_of plant) (indexes_of indexes) query (length out.old) ≡ 0 }
    ensures { RunGives (ended (plant_of plant.entry) (list_of (indexes_of indexes.entry)) query query.budget) out.old out.new result }
{
    let required = &query.required.places[..query.required.count];
    let forbidden = &query.forbidden.places[..query.forbidden.count];
    let mut lists = [&indexes.second.postings[..0]; 16];
    gather(indexes, required, forbidden, &mut lists);
    let count = required.len() + forbidden.len();
    run(plant, &lists[..count], required.len(), query, out)
}
