// Shows stamps and links at work: a slot handed out, removed and handed out again; two calls put under a car.
// Nothing is decided here: every line is what the crate `link` answers.

#![tactic(auto)]

use link::id::{Stamp, found, id_of};
use link::relations::insert_last_unchecked;
use link::words::{Slot, link_of, set_link};
use std::io;

// The seven words of the slot that an identifier names.
fn slot(rt: &HostRuntime, words: &[u32], id: u32) -> io::Result<()> {
    for k in 0..Slot::WORDS as u32 {
        print!(rt; " {}", link_of(words, id, k))?;
    }
    println!(rt)
}

fn answer(rt: &HostRuntime, yes: bool) -> io::Result<()> {
    println!(rt; " {}", if yes { "yes" } else { "no" })
}

// The 16 bits of a stamp when handed out, once removed, and when the slot is handed out again.
fn stamps(rt: &HostRuntime) -> io::Result<()> {
    let handed_out = Stamp::fresh().bits();
    let removed = Stamp::fresh().removed().bits();
    let reused = Stamp(-1).reuse().bits();
    println!(rt; "stamp, removed, reused: {handed_out} {removed} {reused}")?;
    let spent = Stamp(Stamp::LAST).removed();
    print!(rt; "the last stamp, removed, is spent: {}", spent.bits())?;
    answer(rt, spent.is_spent())
}

// A node, put under another behind its children.
fn put_under(rt: &HostRuntime, words: &mut [u32], node: u32, parent: u32) -> io::Result<()> {
    match insert_last_unchecked(words, node, parent, 4) {
        Ok(()) => Ok(()),
        Err(error) => println!(rt; "{error:?}"),
    }
}

fn main(rt: HostRuntime) -> io::Result<()> {
    stamps(&rt)?;
    let mut words = [0u32; 21];
    let car = id_of(1, 0);
    let first = id_of(2, 0);
    let second = id_of(3, 0);
    for (id, stored) in [(car, 10), (first, 20), (second, 30)] {
        set_link(&mut words, id, Slot::NUMBER, stored);
    }
    put_under(&rt, &mut words, first, car)?;
    put_under(&rt, &mut words, second, car)?;
    print!(rt; "car:")?;
    slot(&rt, &words, car)?;
    print!(rt; "first call:")?;
    slot(&rt, &words, first)?;
    print!(rt; "second call:")?;
    slot(&rt, &words, second)?;
    print!(rt; "131072 is found:")?;
    answer(&rt, found(&words, 3, 131072))?;
    print!(rt; "131073, a later stamp of that slot, is found:")?;
    answer(&rt, found(&words, 3, 131073))
}
