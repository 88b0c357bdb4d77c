// A capacity of one, run to its end: the one slot is handed out 32,768 times, and its last removal spends it.
// Nothing is decided here: every line is what a public call answers.

#![tactic(auto)]

use arena::arena::{clear, new_node};
use link::header::Header;
use removal::removal::checked_remove;
use rules::answer::{Answer, Refusal};
use std::io;

// What was called, the number answered and its result.
fn show(rt: &HostRuntime, call: &str, answer: Answer) -> io::Result<()> {
    println!(rt; "{call}: {} {}", answer.number, answer.result)
}

// Makes a node and removes it, so many times, from an empty arena.
fn make_and_remove(words: &mut [u32], scratch: &mut [u32], times: u32) -> Result<Header, Refusal> {
    let mut h = clear();
    for number in 0..times {
        let made = new_node(words, h, scratch, number)?;
        h = checked_remove(words, made.header, scratch, made.id)?;
    }
    Ok(h)
}

fn main(rt: HostRuntime) -> io::Result<()> {
    let mut words = [0u32; 7];
    let mut scratch = [0u32; 2];
    let h = match make_and_remove(&mut words, &mut scratch, 32767) {
        Ok(h) => h,
        Err(refusal) => return println!(rt; "refused: {refusal:?}"),
    };
    let made = Answer::of(h, new_node(&mut words, h, &mut scratch, 10));
    show(&rt, "creation 32768", made)?;
    let once = checked_remove(&mut words, made.header, &mut scratch, made.result);
    let removed = Answer::of(made.header, once);
    show(&rt, "its removal", removed)?;
    let twice = checked_remove(&mut words, removed.header, &mut scratch, made.result);
    let again = Answer::of(removed.header, twice);
    show(&rt, "removed again", again)?;
    let full = new_node(&mut words, again.header, &mut scratch, 10);
    show(&rt, "creation 32769", Answer::of(again.header, full))
}
