// The program where there is no plant.txt.
#![tactic(auto)]

fn main(rt: HostRuntime) {
    program::run(&rt, &mut rt.stdin(), "plant.txt", &mut rt.stderr());
}
