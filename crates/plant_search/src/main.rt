// Reads the plant from `plant.txt` in the working folder and the query from standard input, and prints the answer.
#![tactic(auto)]

fn main(rt: HostRuntime) {
    program::run(&rt, &mut rt.stdin(), "plant.txt", &mut rt.stderr());
}
