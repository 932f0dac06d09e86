// The program where standard input is empty.
#![tactic(auto)]

fn main(rt: HostRuntime) {
    program::run(&rt, &mut rt.stdin(), "plant.txt", &mut rt.stderr());
}
