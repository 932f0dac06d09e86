// Lines and the whole of an answer, written into the output buffer. Each function returns where the next byte goes.
ghost use Rattle.std.specs.Prelude.{◌+◌, ◌≤◌, length};
ghost use Rattle.writing.specs.inner.Puts.{Puts};
ghost use Rattle.respond.specs.inner.Prints.{answer_bytes};
ghost use Rattle.respond.specs.Lines.{numbered, «numbered₂», device_lines, answer_text};

use writing::{put_number, put_word};

// A line of a word, a number and a closing bracket.
pub fn put_numbered(out: &mut [u8], at: usize, word: &[u8], n: u32) -> usize
    ensures puts { Puts out.old at (numbered word.now n) out.new result }
    ensures few { length (numbered word.now n) ≤ length word.now + 12 }
{
    let first = at + put_word(out, at, word);
    let next = first + put_number(out, first, u64::from(n));
    next + put_word(out, next, b")\n")
}

// A line of a word, two numbers and a closing bracket.
pub fn put_numbered_twice(out: &mut [u8], at: usize, word: &[u8], n: u32, m: u32) -> usize
    ensures puts { Puts out.old at («numbered₂» word.now n m) out.new result }
    ensures few { length («numbered₂» word.now n m) ≤ length word.now + 23 }
{
    let first = at + put_word(out, at, word);
    let next = first + put_number(out, first, u64::from(n));
    put_numbered(out, next, b" ", m)
}

// The lines of a listing.
fn put_devices(out: &mut [u8], at: usize, listing: &[u16]) -> usize
    ensures { Puts out.old at (device_lines listing.now) out.new result }
{
    let mut next = at;
    for &d in listing {
        next = put_numbered(out, next, b"(device ", u32::from(d));
    }
    next
}

// The whole of an answer, from the start of the buffer.
pub fn put_answer(out: &mut [u8], listing: &[u16], position: u32, passed: u32, moves: u32) -> usize
    ensures puts { Puts out.old 0 (answer_text listing.now position passed moves) out.new result }
    ensures few { length (answer_text listing.now position passed moves) ≤ answer_bytes (length listing.now) }
{
    let first = put_word(out, 0, b"(answer\n");
    let devices = put_devices(out, first, listing);
    let place = put_numbered(out, devices, b"(place ", position);
    let next = put_numbered(out, place, b"(passed ", passed);
    let end = put_numbered(out, next, b"(moves ", moves);
    end + put_word(out, end, b")\n")
}
