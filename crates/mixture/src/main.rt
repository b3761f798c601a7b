// Reads a mixture sheet from standard input and writes its answer to standard output.
#![tactic(auto)]

// Where a write fails, a line on standard error says why.
fn main(rt: HostRuntime) {
    if let Err(error) = mixture_run::run(&mut rt.stdin(), &mut rt.stdout()) {
        mixture_run::complain(&rt, "mixture: standard output", error);
    }
}
