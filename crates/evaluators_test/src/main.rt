// Holds the search against evaluators that are written apart from it. The evaluators are slow and plain, meant for small plants, and are
// proved to be safe and to end, no more: what they say is compared with the search when this program runs.
// First document 01's rows as texts, each answer beside what the slow evaluator lists. Then small plants, pairs of indexes and queries from a
// fixed seed, the search beside the slow evaluator, the plain steps and the plain refusals.
#![tactic(auto)]

mod beside;
mod compare;
mod crosscheck;
mod make;
mod plain_steps;
mod queries;
mod random;
mod refusals;
mod rows;
mod slow;
mod spoil;
mod tables;

use std::io;

fn main(rt: HostRuntime) -> io::Result<()> {
    rows::print_rows(&rt)?;
    crosscheck::print_cases(&rt)
}
