// The command program on empty input, which writes nothing.

#![tactic(auto)]

fn main(rt: HostRuntime) {
    console::serve::serve(&rt);
}
