// The free chain and creation, as in the Rust: a freed slot joins at the chain's end, a creation takes the first.
// Public calls ask for nothing; the work of a creation asks for ready memory, freeing for what its body needs.
ghost use Rattle.std.specs.Prelude.{◌≡◌, ◌+◌, ◌*◌, ◌<◌, ◌≤◌, length};
ghost use Rattle.link.specs.Stamps.{removed_bits, reused_bits};
ghost use Rattle.link.specs.Words.{width, STAMP, capacity_of, word};
ghost use Rattle.link.specs.Ids.{stamp_of};
ghost use Rattle.link.specs.Found.{Found};
ghost use Rattle.rules.specs.Answers.{DONE, answer, answer_created, header, reply_of};
ghost use Rattle.rules.specs.Sound.{Ready};
ghost use Rattle.arena.specs.FreeList.{last_left, pop_free, join_last, free_node};
ghost use Rattle.arena.specs.Create.{made, fresh, new_node, new_call};
ghost use Rattle.arena.specs.Census.{counted_of, live_call, census_call};
ghost use Rattle.arena.specs.Reads.{cleared};

use crate::census::{Census, count_census, count_live};
use crate::node::write_node;
use link::header::Header;
use link::id::{Stamp, id_of, slot_of, stamp_of};
use link::words::{Slot, capacity, get_word, set_word};
use rules::answer::{Created, Refusal};
use sound::guard;

// Kind 1, in word 0 of a freed slot: a number, since a word of memory holds it.
pub const FREE: u32 = 65536;

// The first slot of the free chain, and the header without it.
#[derive(Clone, Copy, Debug, PartialEq, Eq)]
pub struct Popped {
    pub slot: u32,
    pub header: Header,
}

// The 16 bits of a stamp once it is removed, and once a removed one is reused.
#[tactic(auto, using(crate::specs::FreeListLaws::stamp_steps))]
fn removed_bits(bits: u32) -> u32
    requires { bits ≤ 32767 }
    ensures { result ≡ removed_bits bits }
{
    Stamp::of_bits(bits).removed().bits()
}

#[tactic(auto, using(crate::specs::FreeListLaws::stamp_steps))]
fn reused_bits(bits: u32) -> u32
    requires { (32769 ≤ bits) × (bits ≤ 65535) }
    ensures { result ≡ reused_bits bits }
{
    Stamp::of_bits(bits).reuse().bits()
}

// A header with other ends of the chain.
fn with_chain(h: Header, first: u32, last: u32) -> Header
    ensures { result ≡ header h.used first last }
{
    Header { first, last, ..h }
}

// The last slot of the chain, once its first is taken and it goes on at next.
#[tactic(auto, using(std::proofs::lemmas::Bool::Decides::nat_tests), unfolding(crate::specs::FreeList::last_left))]
fn last_left(next: u32, last: u32) -> u32
    ensures { result ≡ last_left next last }
{
    if next == 0 { 0 } else { last }
}

#[tactic(auto, using(std::proofs::lemmas::Bool::Decides::nat_tests), unfolding(crate::specs::FreeList::pop_front, crate::specs::FreeList::pop_free))]
pub fn pop_front_free_node(words: &[u32], h: Header) -> Option<Popped>
    requires { h.first * width ≤ length words.now }
    ensures { result ≡ pop_free words.now h }
{
    let slot = h.first;
    if slot == 0 {
        return None;
    }
    let next = get_word(words, slot, Slot::NUMBER);
    let header = with_chain(h, next, last_left(next, h.last));
    Some(Popped { slot, header })
}

// A slot joins the chain behind its last.
#[tactic(auto, using(std::proofs::lemmas::Bool::Decides::nat_tests), unfolding(crate::specs::FreeList::join_last))]
fn join_last(words: &mut [u32], h: Header, slot: u32) -> Header
    requires { h.last * width ≤ length words.old }
    ensures { (words.new, result) ≡ join_last words.old h slot }
{
    let last = h.last;
    if last == 0 {
        return with_chain(h, slot, slot);
    }
    set_word(words, last, Slot::NUMBER, slot);
    with_chain(h, h.first, slot)
}

// The slot of a found identifier is freed, and joins the chain unless that spends it.
#[tactic(auto, using(crate::specs::FreeListLaws::freed), unfolding(crate::specs::FreeList::free_node))]
pub fn free_node(words: &mut [u32], h: Header, id: u32) -> Header
    requires { Found words.old h.used id × (h.used * width ≤ length words.old) × (h.last ≤ h.used) }
    ensures { (words.new, result) ≡ free_node words.old h id }
{
    let slot = slot_of(id);
    let stamp = stamp_of(get_word(words, slot, Slot::STAMP));
    let bits = removed_bits(stamp);
    write_node(words, slot, FREE + bits, 0);
    if Stamp::of_bits(bits).is_spent() {
        return h;
    }
    join_last(words, h, slot)
}

// A node in the next fresh slot.
#[tactic(auto, using(std::proofs::lemmas::Bool::Decides::nat_tests), unfolding(crate::specs::Create::fresh))]
fn push_node(words: &mut [u32], h: Header, number: u32) -> Created
    requires { ((h.used + 1) * width ≤ length words.old) × (h.used < 65535) }
    ensures { (words.new, answer result.header DONE result.id) ≡ fresh words.old h number }
{
    let slot = h.used + 1;
    let stamp = Stamp::fresh().bits();
    write_node(words, slot, stamp, number);
    Created {
        header: Header { used: slot, ..h },
        id: id_of(slot, stamp),
    }
}

// A node in the first slot of the chain.
fn reuse_node(words: &mut [u32], taken: Popped, number: u32) -> Created
    requires { (0 < taken.slot) × (taken.slot ≤ 65535) × (taken.slot * width ≤ length words.old) × (32769 ≤ stamp_of (word words.old taken.slot STAMP)) }
    ensures { (words.new, answer result.header DONE result.id) ≡ made words.old taken.header taken.slot (reused_bits (stamp_of (word words.old taken.slot STAMP))) number }
{
    let slot = taken.slot;
    let stamp = reused_bits(stamp_of(get_word(words, slot, Slot::STAMP)));
    write_node(words, slot, stamp, number);
    Created {
        header: taken.header,
        id: id_of(slot, stamp),
    }
}

// The work of a creation, on ready memory.
#[tactic(auto, using(crate::specs::CreateLaws::creation))]
pub fn create(words: &mut [u32], h: Header, number: u32) -> Result<Created, Refusal>
    requires { Ready words.old h × (h.used ≤ capacity_of (length words.old)) }
    ensures { (words.new, answer_created h result) ≡ new_node words.old h number }
{
    match pop_front_free_node(words, h) {
        Some(taken) => Ok(reuse_node(words, taken, number)),
        None if h.used < capacity(words) => Ok(push_node(words, h, number)),
        None => Err(Refusal::Full),
    }
}

// Nothing is in use then; no word is touched.
pub fn clear() -> Header
    ensures { result ≡ cleared }
{
    Header::default()
}

// A node with this number and no links, on any memory.
pub fn new_node(
    words: &mut [u32],
    h: Header,
    scratch: &mut [u32],
    number: u32,
) -> Result<Created, Refusal>
    ensures { (words.new, scratch.new, answer_created h result) ≡ new_call words.old h scratch.old number }
{
    guard(words, h, scratch)?;
    create(words, h, number)
}

// How many slots hold a node.
pub fn live_count(words: &[u32], h: Header, scratch: &mut [u32]) -> Result<u32, Refusal>
    ensures { (scratch.new, reply_of result) ≡ live_call words.now h scratch.old }
{
    guard(words, h, scratch)?;
    Ok(count_live(words, h))
}

// Live, free, spent and fresh slots.
pub fn census(words: &[u32], h: Header, scratch: &mut [u32]) -> Result<Census, Refusal>
    ensures { (scratch.new, counted_of result) ≡ census_call words.now h scratch.old }
{
    guard(words, h, scratch)?;
    Ok(count_census(words, h))
}
