// Loads good images, and copies of them with a byte changed or of another length, and writes the numbers answered;
// for a changed byte a letter each, 0 to 9, then A for 10 and so on. What it should write was made by tools/damaged, which reads document 01 by itself.

#![tactic(auto)]

mod images;

ghost use Rattle.std.specs.Prelude.{◌<◌, ◌≤◌, length};

use image::load::{answered, load};
use image::save::save;
use rules::answer::Reply;
use std::io;
use std::io::Print;

// By hand, since `from_digit` of std has small letters.
fn letter(number: u32) -> u8 {
    match number {
        0..=9 => b'0' + number as u8,
        10..=35 => b'A' + (number - 10) as u8,
        _ => b'?',
    }
}

// The number of a load.
fn loaded(image: &[u8], words: &mut [u32], scratch: &mut [u32]) -> u32 {
    Reply::from(load(image, words, scratch)).number
}

// The image as it is: what load answers and leaves, and what save then answers and writes.
fn whole(
    rt: &HostRuntime,
    image: &[u8],
    words: &mut [u32],
    scratch: &mut [u32],
    out: &mut [u8],
) -> io::Result<()> {
    let a = answered(load(image, words, scratch));
    let h = a.header;
    print!(rt;
        "loaded {} {} {} {}\nwords",
        a.number, h.used, h.first, h.last
    )?;
    for word in words.iter() {
        print!(rt; " {word}")?;
    }
    let r = Reply::from(save(words, h, scratch, out));
    let bytes = if out.starts_with(image) {
        "the same"
    } else {
        "other"
    };
    println!(rt; "\nsaved {} {} {bytes} bytes", r.number, r.result)
}

// Of an image, of a destination and of a scratch, each length is lent, from none to all: three loops, since each cuts another of what
// load takes, and a closure that cuts could not know that the length is within.

// The numbers for the first bytes.
fn lengths(
    rt: &HostRuntime,
    copy: &[u8],
    words: &mut [u32],
    scratch: &mut [u32],
) -> io::Result<()> {
    print!(rt; "lengths")?;
    for n in 0..=copy.len() {
        print!(rt; " {}", loaded(&copy[..n], words, scratch))?;
    }
    println!(rt)
}

// The numbers for destinations.
fn destinations(
    rt: &HostRuntime,
    image: &[u8],
    words: &mut [u32],
    scratch: &mut [u32],
) -> io::Result<()> {
    print!(rt; "destinations")?;
    for n in 0..=words.len() {
        print!(rt; " {}", loaded(image, &mut words[..n], scratch))?;
    }
    println!(rt)
}

// The numbers for scratches.
fn scratches(
    rt: &HostRuntime,
    image: &[u8],
    words: &mut [u32],
    scratch: &mut [u32],
) -> io::Result<()> {
    print!(rt; "scratches")?;
    for n in 0..=scratch.len() {
        print!(rt; " {}", loaded(image, words, &mut scratch[..n]))?;
    }
    println!(rt)
}

// One byte at each of its 256 values, a letter for each.
fn each_value(copy: &mut [u8], at: usize, words: &mut [u32], scratch: &mut [u32]) -> [u8; 256]
    requires { at < length copy.old }
{
    let mut line = [0u8; 256];
    let kept = copy[at];
    for value in 0..=255u8 {
        copy[at] = value;
        line[value as usize] = letter(loaded(copy, words, scratch));
    }
    copy[at] = kept;
    line
}

// A line for each byte.
fn each_byte(
    rt: &HostRuntime,
    copy: &mut [u8],
    words: &mut [u32],
    scratch: &mut [u32],
) -> io::Result<()> {
    for at in 0..copy.len() {
        let line = each_value(copy, at, words, scratch);
        print!(rt; "byte {at} ")?;
        rt.write_all(&line)?;
        println!(rt)?;
    }
    Ok(())
}

fn report(rt: &HostRuntime, good: &[u8]) -> io::Result<()>
    requires { length good.now ≤ 158 }
{
    let mut copy = [0u8; 160];
    let mut words = [0u32; 42];
    let mut scratch = [0u32; 12];
    let mut out = [0u8; 160];
    let n = good.len();
    copy[..n].copy_from_slice(good);
    let longest = n + 2;
    println!(rt; "image of {n} bytes")?;
    whole(rt, good, &mut words, &mut scratch, &mut out)?;
    destinations(rt, good, &mut words, &mut scratch)?;
    scratches(rt, good, &mut words, &mut scratch)?;
    lengths(rt, &copy[..longest], &mut words, &mut scratch)?;
    each_byte(rt, &mut copy[..n], &mut words, &mut scratch)
}

fn main(rt: HostRuntime) -> io::Result<()> {
    report(&rt, &images::EMPTY)?;
    report(&rt, &images::P2)?;
    report(&rt, &images::SPENT)
}
