// The command program. The gate runs it on the commands of document 01's P1 to P3, which write eight lines.

#![tactic(auto)]

fn main(rt: HostRuntime) {
    console::serve::serve(&rt);
}
