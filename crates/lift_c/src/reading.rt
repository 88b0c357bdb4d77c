// Single reads, set and clear.
ghost use Rattle.std.specs.Prelude.{◌≡◌};
ghost use Rattle.link.specs.Words.{NUMBER, PARENT, PREVIOUS, NEXT, FIRST, LAST};
ghost use Rattle.rules.specs.Answers.{DONE, reply, answer};
ghost use Rattle.arena.specs.Reads.{read_word, set_number, cleared};
ghost use Rattle.lift_c.specs.Face.{header_of};

use crate::packing::{header_of, put_header, put_reply};
use arena::arena::clear;
use arena::node::{first_child, get, last_child, next_sibling, parent, previous_sibling, set};
use rules::answer::DONE;

pub fn lift_get(words: &[u32], header: &[u32; 3], id: u32, res: &mut u32) -> u32
    ensures { reply result res.new ≡ read_word NUMBER words.now (header_of header.now) id }
{
    let h = header_of(header);
    put_reply(res, get(words, h, id))
}

pub fn lift_parent(words: &[u32], header: &[u32; 3], id: u32, res: &mut u32) -> u32
    ensures { reply result res.new ≡ read_word PARENT words.now (header_of header.now) id }
{
    let h = header_of(header);
    put_reply(res, parent(words, h, id))
}

pub fn lift_first_child(words: &[u32], header: &[u32; 3], id: u32, res: &mut u32) -> u32
    ensures { reply result res.new ≡ read_word FIRST words.now (header_of header.now) id }
{
    let h = header_of(header);
    put_reply(res, first_child(words, h, id))
}

pub fn lift_last_child(words: &[u32], header: &[u32; 3], id: u32, res: &mut u32) -> u32
    ensures { reply result res.new ≡ read_word LAST words.now (header_of header.now) id }
{
    let h = header_of(header);
    put_reply(res, last_child(words, h, id))
}

pub fn lift_next_sibling(words: &[u32], header: &[u32; 3], id: u32, res: &mut u32) -> u32
    ensures { reply result res.new ≡ read_word NEXT words.now (header_of header.now) id }
{
    let h = header_of(header);
    put_reply(res, next_sibling(words, h, id))
}

pub fn lift_previous_sibling(words: &[u32], header: &[u32; 3], id: u32, res: &mut u32) -> u32
    ensures { reply result res.new ≡ read_word PREVIOUS words.now (header_of header.now) id }
{
    let h = header_of(header);
    put_reply(res, previous_sibling(words, h, id))
}

pub fn lift_set(words: &mut [u32], header: &[u32; 3], id: u32, number: u32, res: &mut u32) -> u32
    ensures { (words.new, reply result res.new) ≡ set_number words.old (header_of header.now) id number }
{
    let h = header_of(header);
    put_reply(res, set(words, h, id, number))
}

pub fn lift_clear(header: &mut [u32; 3]) -> u32
    ensures { answer (header_of header.new) result 0 ≡ answer cleared DONE 0 }
{
    put_header(header, clear());
    DONE
}
