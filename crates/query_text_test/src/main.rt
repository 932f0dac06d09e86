// Reads query texts and prints what each comes to: document 01's lines, each refusal, and what lies at the limits. Standard input has
// them: a line with a name, the text, and a `~`.
#![tactic(auto)]

use query::{Levels, Query, Terms};
use std::io::{self, Read};
use text::Refused;

// Prints the count of terms in use and all places.
fn show_terms(rt: &impl Print, name: &str, terms: Terms) -> io::Result<()> {
    print!(rt; "{name} {} of", terms.count)?;
    for term in terms.places {
        print!(rt; " {term}")?;
    }
    print!(rt; ", ")
}

fn show_levels(rt: &impl Print, levels: Levels) -> io::Result<()> {
    match levels {
        Levels::Any => print!(rt; "any level"),
        Levels::TrueOnly => print!(rt; "true levels"),
        Levels::Range(low, high) => print!(rt; "level {low} {high}"),
    }
}

fn show(rt: &impl Print, query: Query) -> io::Result<()> {
    show_terms(rt, "required", query.required)?;
    show_terms(rt, "forbidden", query.forbidden)?;
    show_levels(rt, query.levels)?;
    println!(rt; ", start {}, budget {}", query.start, query.budget)
}

// Prints `name: refusal line` and the query: an empty one, where the text is refused.
fn read(rt: &impl Print, name: &str, text: &[u8]) -> io::Result<()> {
    match query_text::read(text) {
        Ok(query) => {
            println!(rt; "{name}: 0 0")?;
            show(rt, query)
        }
        Err(Refused { line, refusal }) => {
            println!(rt; "{name}: {refusal} {line}")?;
            show(rt, Query::empty())
        }
    }
}

// The last two are a text of 4,096 bytes that is one unfinished line, and one of 4,097.
fn main(rt: HostRuntime) -> io::Result<()> {
    let mut input = String::new(rt.alloc());
    rt.reader().read_to_string(&mut input)?;
    for case in input.as_str().split('~') {
        if let Some((name, text)) = case.split_once('\n') {
            read(&rt, name, text.as_bytes())?;
        }
    }
    read(&rt, "33 in 4,096 bytes", &[b'x'; 4096])?;
    read(&rt, "30, 4,097 bytes", &[b'x'; 4097])
}
