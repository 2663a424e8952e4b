// The same program as `blocks`, over recorded blocks at the borders.
#![tactic(auto)]

fn main(rt: HostRuntime) {
    stream::run(&rt, b"border", pieces::Program::Blocks);
}
