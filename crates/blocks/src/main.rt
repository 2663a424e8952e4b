// The records on standard input, decoded.
#![tactic(auto)]

fn main(rt: HostRuntime) {
    stream::run(&rt, b"blocks", pieces::Program::Blocks);
}
