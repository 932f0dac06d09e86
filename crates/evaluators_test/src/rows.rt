// Document 01's rows a to m and its sentences after them, row j and the windowless ones as document 02 has them, and document 02's asks without
// a level line, postings passed over, level code 0 and marks of the second store, as texts. Prints each query with its answer and with what the
// slow evaluator lists, and how many differ.
use crate::beside;
use respond::respond;
use std::io;

// A label, a plant and a query.
type Row = (&'static str, &'static str, &'static str);

// Document 01's plant P.
const P: &str =
    "(plant\n(dev 120\n(dev 118\n(dev 255\n)\n)\n(dev 121\n(dev 90\n)\n(dev 119\n)\n)\n)\n(mark 7\n(all 2)\n(own 5)\n)\n(mark 9\n(all 4)\n)\n)\n";

const EMPTY: &str = "(plant\n)\n";

// The rows without a window ask for any level.
const ROWS: [Row; 13] = [
    ("a", P, "(ask\n(need 7)\n(level any)\n)\n"),
    ("b", P, "(ask\n(need 9)\n(level any)\n)\n"),
    ("c", P, "(ask\n(need 7)\n(not 9)\n(level any)\n)\n"),
    ("d", P, "(ask\n(need 9)\n(not 7)\n(level any)\n)\n"),
    ("e", P, "(ask\n(need 7)\n(level 100 140)\n)\n"),
    (
        "f",
        P,
        "(ask\n(need 7)\n(not 9)\n(level any)\n(moves 0)\n)\n",
    ),
    ("g", P, "(ask\n(need 8)\n(level any)\n)\n"),
    ("h", P, "(ask\n(not 8)\n(level any)\n)\n"),
    ("i", P, "(ask\n(need 7)\n(not 7)\n(level any)\n)\n"),
    ("j", P, "(ask\n(level 1 254)\n)\n"),
    ("k", P, "(ask\n(need 9)\n(level any)\n(from 6)\n)\n"),
    ("l", P, "(ask\n(need 7)\n(level any)\n(from 7)\n)\n"),
    ("m", EMPTY, "(ask\n(level any)\n)\n"),
];

// Asks without a level line: device 3, at 255, is left out; places and moves are those with any level.
const WITHOUT_LEVEL_LINE: [Row; 3] = [
    ("c without a level line", P, "(ask\n(need 7)\n(not 9)\n)\n"),
    (
        "f without a level line",
        P,
        "(ask\n(need 7)\n(not 9)\n(moves 0)\n)\n",
    ),
    ("the empty ask", P, "(ask\n)\n"),
];

// The sentences after the rows that are refusals, the last over a plant of its own.
const REFUSED_SENTENCES: [Row; 4] = [
    ("from 8 is 13", P, "(ask\n(from 8)\n)\n"),
    ("high 255 is 12", P, "(ask\n(level 1 255)\n)\n"),
    ("low 0 is 12", P, "(ask\n(level 0 254)\n)\n"),
    (
        "mark 7 with all 2 and own 3 is redundant",
        "(plant\n(dev 120\n(dev 118\n(dev 255\n)\n)\n)\n(mark 7\n(all 2)\n(own 3)\n)\n)\n",
        "(ask\n(need 7)\n)\n",
    ),
];

// The sentence after them, over a plant of its own.
const LAST_SENTENCE: [Row; 1] = [(
    "own 1 and all 2 is not",
    "(plant\n(dev 120\n(dev 118\n(dev 255\n)\n)\n)\n(mark 7\n(own 1)\n(all 2)\n)\n)\n",
    "(ask\n(need 7)\n(level any)\n)\n",
)];

// Moves that pass over postings, over a plant of two trees. The cursor of mark 8 goes from 1 over 2 to 5, the first in the tree of 4; that of
// mark 9 from 4 to the next posting, 7; that of mark 8 from 5 over 6, in the branch of 5, to 7.
const TWO_TREES: &str =
    "(plant\n(dev 1\n(dev 1\n)\n(dev 1\n)\n)\n(dev 1\n(dev 1\n(dev 1\n)\n)\n(dev 1\n)\n)\n(mark 8\n(own 1)\n(own 2)\n(own 5)\n(own 6)\n(own 7)\n)\n(mark 9\n(own 4)\n(own 7)\n)\n)\n";

const JUMPS: [Row; 2] = [
    (
        "passed over: 2 and 6",
        TWO_TREES,
        "(ask\n(need 9)\n(not 8)\n(level any)\n)\n",
    ),
    (
        "passed over by the first two moves: 2",
        TWO_TREES,
        "(ask\n(need 9)\n(not 8)\n(level any)\n(moves 2)\n)\n",
    ),
];

// The devices of plant P with device 3 at 0 and device 5 at 1: 0 is no true level, and 1 is the lowest.
const LOW_LEVELS: &str =
    "(plant\n(dev 120\n(dev 118\n(dev 0\n)\n)\n(dev 121\n(dev 1\n)\n(dev 119\n)\n)\n)\n)\n";

const LEVELS: [Row; 4] = [
    (
        "device 3 is at 0: in no window",
        LOW_LEVELS,
        "(ask\n(level 1 254)\n)\n",
    ),
    (
        "device 5 is at 1: in a window from 1",
        LOW_LEVELS,
        "(ask\n(level 1 1)\n)\n",
    ),
    ("any level", LOW_LEVELS, "(ask\n(level any)\n)\n"),
    (
        "without a level line: device 5 and not device 3",
        LOW_LEVELS,
        "(ask\n)\n",
    ),
];

// Plant P with 32,767 or 32,768 for mark 9. From 32,768 on marks belong in the second store, which is empty here.
const BELOW: &str =
    "(plant\n(dev 120\n(dev 118\n(dev 255\n)\n)\n(dev 121\n(dev 90\n)\n(dev 119\n)\n)\n)\n(mark 7\n(all 2)\n(own 5)\n)\n(mark 32767\n(all 4)\n)\n)\n";

const FROM: &str =
    "(plant\n(dev 120\n(dev 118\n(dev 255\n)\n)\n(dev 121\n(dev 90\n)\n(dev 119\n)\n)\n)\n(mark 7\n(all 2)\n(own 5)\n)\n(mark 32768\n(all 4)\n)\n)\n";

const STORES: [Row; 4] = [
    (
        "mark 40000 is on no device",
        P,
        "(ask\n(need 40000)\n(level any)\n)\n",
    ),
    (
        "mark 40000 bars no device",
        P,
        "(ask\n(not 40000)\n(level any)\n)\n",
    ),
    (
        "b with 32767 for 9",
        BELOW,
        "(ask\n(need 32767)\n(level any)\n)\n",
    ),
    (
        "c with 32767 for 9",
        BELOW,
        "(ask\n(need 7)\n(not 32767)\n(level any)\n)\n",
    ),
];

// Those with 32,768 are refused by 15, whatever the ask.
const MISFILED: [Row; 3] = [
    ("b with 32768 for 9 is 15", FROM, "(ask\n(need 32768)\n)\n"),
    (
        "so is an ask that does not name it",
        FROM,
        "(ask\n(need 7)\n)\n",
    ),
    ("and one that would be 11", FROM, "(ask\n(need 0)\n)\n"),
];

// What a row is to give: the listing of the slow evaluator, or a refusal.
#[derive(Clone, Copy, PartialEq, Eq)]
enum Due {
    Listing,
    Refusal,
}

// Prints a query text and its answer over a plant text, and unless a refusal is due what the slow evaluator lists. Whether the answer is what is
// due.
fn print_row<R: Print + AllocGlobal>(
    rt: &R,
    (label, plant, query): Row,
    due: Due,
) -> io::Result<bool> {
    let mut out = [0; 16384];
    let n = respond(plant.as_bytes(), query.as_bytes(), &mut out);
    let answer = &out[..n];
    print!(rt; "{label}\n{query}")?;
    rt.write_all(answer)?;
    if due == Due::Refusal {
        println!(rt; "")?;
        return Ok(answer.starts_with(b"(refused"));
    }
    let listed = beside::listing_of_texts(rt.alloc(), plant.as_bytes(), query.as_bytes())?;
    let Some(listed) = listed else {
        println!(rt; "")?;
        return Ok(false);
    };
    beside::print(rt, &listed)?;
    Ok(beside::agrees(rt.alloc(), answer, &listed)?)
}

pub fn print_rows<R: Print + AllocGlobal>(rt: &R) -> io::Result<()> {
    let mut differences: u32 = 0;
    let groups: [(&[Row], Due); 8] = [
        (&ROWS, Due::Listing),
        (&WITHOUT_LEVEL_LINE, Due::Listing),
        (&REFUSED_SENTENCES, Due::Refusal),
        (&LAST_SENTENCE, Due::Listing),
        (&JUMPS, Due::Listing),
        (&LEVELS, Due::Listing),
        (&STORES, Due::Listing),
        (&MISFILED, Due::Refusal),
    ];
    for (rows, due) in groups {
        for row in rows {
            if !print_row(rt, *row, due)? {
                differences = differences.saturating_add(1);
            }
        }
    }
    println!(rt; "differences {differences}")
}
