// The program where the plant is refused, and so is the ask: the plant comes first.
#![tactic(auto)]

fn main(rt: HostRuntime) {
    program::run(&rt, &mut rt.stdin(), "plant.txt", &mut rt.stderr());
}
