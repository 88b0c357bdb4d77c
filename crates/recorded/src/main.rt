// The command program on 4,000 commands of every kind, with reads of the whole forest after each change. The file stdout has the answers of
// the crate indextree 4.9.2, recorded from its own text by rust/run recorded SRC; nothing proved was run for them.

#![tactic(auto)]

fn main(rt: HostRuntime) {
    console::serve::serve(&rt);
}
