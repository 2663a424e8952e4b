// The requests on standard input, each written as a block record.
#![tactic(auto)]

fn main(rt: HostRuntime) {
    stream::run(&rt, b"make", pieces::Program::Make);
}
