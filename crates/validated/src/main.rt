// Runs the validator and the guard over the memories of standard input, and writes an answer line for each.
// A line that starts with `#` is written as it stands. Any other line is a memory: numbers with one space between, which are used,
// first free, last free, the number of scratch words lent, and the words lent.
// An answer line has the validator's number and result, what became of the scratch, the guard's number, and what became of the scratch
// then: `kept` where every word is as before, `zero` where the first 2 × used words are zero and the others as before, else `other`.

#![tactic(auto)]

mod text;

ghost use Rattle.std.specs.Prelude.{◌≤◌, IfOk, length};

use crate::text::numbers_of;
use link::header::Header;
use rules::answer::Reply;
use sound::{guard, validate};
use std::io;
use std::io::{Print, Read};

// The validator's number and result, and the scratch.
fn validated(rt: &HostRuntime, words: &[u32], h: Header, scratch: &mut [u32]) -> io::Result<()> {
    scratch.fill(BEFORE);
    let reply = Reply::from(validate(words, h, scratch));
    print!(rt; "{} {}", reply.number, reply.result)?;
    report(rt, scratch, h.used)
}

// The guard's number, and the scratch.
fn guarded(rt: &HostRuntime, words: &[u32], h: Header, scratch: &mut [u32]) -> io::Result<()> {
    scratch.fill(BEFORE);
    let reply = Reply::from(guard(words, h, scratch));
    print!(rt; " {}", reply.number)?;
    report(rt, scratch, h.used)?;
    println!(rt)
}

// The line of answers.
fn answers(rt: &HostRuntime, words: &[u32], h: Header, scratch: &mut [u32]) -> io::Result<()> {
    validated(rt, words, h, scratch)?;
    guarded(rt, words, h, scratch)
}

// One memory: the numbers of its line, and room for scratch.
fn memory(rt: &HostRuntime, numbers: &[u32], room: &mut [u32]) -> io::Result<()> {
    let [used, first, last, lent, words @ ..] = numbers else {
        return println!(rt; "no memory");
    };
    let h = Header {
        used: *used,
        first: *first,
        last: *last,
    };
    let Some(scratch) = room.get_mut(..*lent as usize) else {
        return println!(rt; "no room");
    };
    answers(rt, words, h, scratch)
}

// The line of a memory.
fn memory_line(rt: &HostRuntime, line: &[u8]) -> io::Result<()> {
    let mut numbers = [0u32; 128];
    let mut room = [0u32; 64];
    let count = numbers_of(line, &mut numbers);
    memory(rt, &numbers[..count], &mut room)
}

// One line, with its end or without.
fn line(rt: &HostRuntime, ended: &[u8]) -> io::Result<()> {
    let line = ended.strip_suffix(b"\n").unwrap_or(ended);
    if line.starts_with(b"#") {
        rt.write_all(line)?;
        println!(rt)
    } else {
        memory_line(rt, line)
    }
}

// Every line.
fn lines(rt: &HostRuntime, text: &[u8]) -> io::Result<()> {
    for ended in text.split_inclusive(|byte| *byte == b'\n') {
        line(rt, ended)?;
    }
    Ok(())
}

// Reads until the bytes are full or the input ends; answers how many it put at the start. How far a step goes is for the input to say,
// so no range counts the steps.
fn read_full(rt: &HostRuntime, bytes: &mut [u8]) -> io::Result<usize>
    ensures { IfOk result (λ n. n ≤ length bytes.new) }
{
    let mut done = 0;
    while done < bytes.len() {
        let n = rt.stdin().read(&mut bytes[done..])?;
        if n == 0 {
            break;
        }
        done += n;
    }
    Ok(done)
}

fn main(rt: HostRuntime) -> io::Result<()> {
    let mut text = [0u8; 131072];
    let n = read_full(&rt, &mut text)?;
    lines(&rt, &text[..n])
}

// What stands in every scratch word before a call.
const BEFORE: u32 = 3735928559;

// Whether the words are all v.
fn all_are(words: &[u32], v: u32) -> bool {
    words.iter().all(|word| *word == v)
}

// Whether the first n words are zero and the others as before the call.
fn zeroed(scratch: &[u32], n: usize) -> bool {
    scratch.split_at_checked(n).is_some_and(|(first, others)| all_are(first, 0)
        && all_are(others, BEFORE))
}

// Writes what became of the scratch.
fn report(rt: &HostRuntime, scratch: &[u32], used: u32) -> io::Result<()> {
    if all_are(scratch, BEFORE) {
        print!(rt; " kept")
    } else if zeroed(scratch, 2 * (used as usize)) {
        print!(rt; " zero")
    } else {
        print!(rt; " other")
    }
}
