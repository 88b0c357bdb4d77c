// A node's words: all seven written as one, and one of them read or set by identifier.
// Reads and set ask for nothing: they refuse FRAME, then REMOVED, on any memory and header.
ghost use Rattle.std.specs.Prelude.{◌≡◌, ◌*◌, ◌<◌, ◌≤◌, length};
ghost use Rattle.link.specs.Words.{width, NUMBER, PARENT, PREVIOUS, NEXT, FIRST, LAST};
ghost use Rattle.arena.specs.Nodes.{slot_at};
ghost use Rattle.arena.specs.Reads.{named_no, read_word, set_number};
ghost use Rattle.rules.specs.Answers.{number_in, reply_of, reply_done};

use examine::slots::found_within;
use link::header::Header;
use link::words::{Slot, capacity, link_of, set_link};
use rules::answer::Refusal;

// Words 0 and 1 of a slot, and no links. Written in place: seven words copied from an array take four times as long.
pub fn write_node(words: &mut [u32], slot: u32, stamp: u32, number: u32)
    requires { (0 < slot) × (slot * width ≤ length words.old) }
    ensures { words.new ≡ slot_at words.old slot stamp number }
{
    let at = (slot as usize - 1) * Slot::WORDS;
    let node = &mut words[at..at + Slot::WORDS];
    node[0] = stamp;
    node[1] = number;
    node[2..].fill(0);
}

// The tests of a call that names one identifier: FRAME, then REMOVED.
#[tactic(auto, using(crate::specs::ReadLaws::naming))]
fn named(words: &[u32], h: Header, id: u32) -> Result<(), Refusal>
    ensures { number_in result ≡ named_no words.now h id }
{
    if capacity(words) < h.used {
        return Err(Refusal::Frame);
    }
    if !found_within(words, h.used, id) {
        return Err(Refusal::Removed);
    }
    Ok(())
}

// Word k of a node.
#[tactic(auto, using(crate::specs::ReadLaws::naming))]
pub fn read(words: &[u32], h: Header, id: u32, k: u32) -> Result<u32, Refusal>
    ensures { reply_of result ≡ read_word k words.now h id }
{
    named(words, h, id)?;
    Ok(link_of(words, id, k))
}

// Document 01's reads by name: six lines here, as C has six functions, and each is `read` at its word.
pub fn get(words: &[u32], h: Header, id: u32) -> Result<u32, Refusal>
    ensures { reply_of result ≡ read_word NUMBER words.now h id }
{
    read(words, h, id, Slot::NUMBER)
}

pub fn parent(words: &[u32], h: Header, id: u32) -> Result<u32, Refusal>
    ensures { reply_of result ≡ read_word PARENT words.now h id }
{
    read(words, h, id, Slot::PARENT)
}

pub fn first_child(words: &[u32], h: Header, id: u32) -> Result<u32, Refusal>
    ensures { reply_of result ≡ read_word FIRST words.now h id }
{
    read(words, h, id, Slot::FIRST)
}

pub fn last_child(words: &[u32], h: Header, id: u32) -> Result<u32, Refusal>
    ensures { reply_of result ≡ read_word LAST words.now h id }
{
    read(words, h, id, Slot::LAST)
}

pub fn previous_sibling(words: &[u32], h: Header, id: u32) -> Result<u32, Refusal>
    ensures { reply_of result ≡ read_word PREVIOUS words.now h id }
{
    read(words, h, id, Slot::PREVIOUS)
}

pub fn next_sibling(words: &[u32], h: Header, id: u32) -> Result<u32, Refusal>
    ensures { reply_of result ≡ read_word NEXT words.now h id }
{
    read(words, h, id, Slot::NEXT)
}

#[tactic(auto, using(crate::specs::ReadLaws::naming))]
pub fn set(words: &mut [u32], h: Header, id: u32, value: u32) -> Result<(), Refusal>
    ensures { (words.new, reply_done result) ≡ set_number words.old h id value }
{
    named(words, h, id)?;
    set_link(words, id, Slot::NUMBER, value);
    Ok(())
}
