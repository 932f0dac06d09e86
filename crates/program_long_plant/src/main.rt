// The program where plant.txt has 65,537 bytes.
#![tactic(auto)]

fn main(rt: HostRuntime) {
    program::run(&rt, &mut rt.stdin(), "plant.txt", &mut rt.stderr());
}
