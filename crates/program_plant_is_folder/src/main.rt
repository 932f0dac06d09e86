// The program where plant.txt is a folder.
#![tactic(auto)]

fn main(rt: HostRuntime) {
    program::run(&rt, &mut rt.stdin(), "plant.txt", &mut rt.stderr());
}
