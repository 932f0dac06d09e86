// Repairs and tightens small indexes and prints what comes of each: notes typed by hand, and notes device by device, on document 01's plant P; what
// is kept, dropped and gathered; each refusal, and which comes first where several apply.
#![tactic(auto)]

mod cases;
mod repairs;
mod tightenings;

use std::io;

fn main(rt: HostRuntime) -> io::Result<()> {
    repairs::print_all(&rt)?;
    tightenings::print_all(&rt)
}
