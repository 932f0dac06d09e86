// Writes tables as plant text and prints what comes of it: document 01's plant P in buffers with exactly enough room, a byte more and a byte less;
// small plants; 32 tiers and 33; the longest text and one device more; texts and tables there and back.
#![tactic(auto)]

use std::io;

mod back;
mod limits;
mod parts;
mod plants;
mod print;

fn main(rt: HostRuntime) -> io::Result<()> {
    plants::rooms(&rt)?;
    plants::small(&rt)?;
    limits::tiers(&rt)?;
    limits::lengths(&rt)?;
    back::texts(&rt)?;
    back::tables(&rt)
}
