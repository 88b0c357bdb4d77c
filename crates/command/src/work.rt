// The work of a command on memory that is known to be ready: nothing is examined here. One jump, by `Work`, leads to it.
ghost use Rattle.std.specs.Prelude.{◌≡◌, ◌≤◌, ◌<◌, length};
ghost use Rattle.link.specs.Words.{width, capacity_of};
ghost use Rattle.rules.specs.Sound.{Ready};
ghost use Rattle.arena.specs.Reads.{read_word, set_number};
ghost use Rattle.rules.specs.Answers.{reply_of, reply_done};
ghost use Rattle.command.specs.Kinds.{call_as, WithinSlot};
ghost use Rattle.command.specs.Acts.{acted};

use crate::code::Work;
use arena::arena::create;
use arena::census::count_live;
use examine::slots::found_within;
use link::header::Header;
use link::id::slot_of;
use link::words::{Slot, get_word, set_word};
use lists::lists::count_nodes;
use moves::detach::detach_children_node;
use removal::removal::remove_children_found;
use rules::answer::{Answer, Refusal};
use splice::work::{detach_ready, move_ready, remove_ready, remove_subtree_ready, value_ready};

// Word k of a node, where the slots in use fit.
fn read_within(words: &[u32], h: Header, id: u32, k: u32) -> Result<u32, Refusal>
    requires { (h.used ≤ capacity_of (length words.now)) × (k < width) }
    ensures { reply_of result ≡ read_word k words.now h id }
{
    if !found_within(words, h.used, id) {
        return Err(Refusal::Removed);
    }
    Ok(get_word(words, slot_of(id), k))
}

fn set_within(words: &mut [u32], h: Header, id: u32, value: u32) -> Result<(), Refusal>
    requires { h.used ≤ capacity_of (length words.old) }
    ensures { (words.new, reply_done result) ≡ set_number words.old h id value }
{
    if !found_within(words, h.used, id) {
        return Err(Refusal::Removed);
    }
    set_word(words, slot_of(id), Slot::NUMBER, value);
    Ok(())
}

// An `Answer` and no `Result`: the works hand back five types, and the definition `acted` answers this record.
pub fn work(words: &mut [u32], h: Header, to_do: Work, a: u32, b: u32) -> Answer
    requires { Ready words.old h × (h.used ≤ capacity_of (length words.old)) × WithinSlot to_do }
    ensures { (words.new, result) ≡ acted (call_as to_do) a b words.old h }
{
    match to_do {
        Work::Read(k) => Answer::of(h, read_within(words, h, a, k)),
        Work::Set => Answer::of(h, set_within(words, h, a, b)),
        Work::New => Answer::of(h, create(words, h, a)),
        Work::Move(place) => Answer::of(h, move_ready(words, h, place, a, b)),
        Work::Value(place) => Answer::of(h, value_ready(words, h, place, a, b)),
        Work::Detach => Answer::of(h, detach_ready(words, h, a)),
        Work::DetachChildren => Answer::of(h, detach_children_node(words, h, a)),
        Work::Remove => Answer::of(h, remove_ready(words, h, a)),
        Work::RemoveSubtree => Answer::of(h, remove_subtree_ready(words, h, a)),
        Work::RemoveChildren => Answer::of(h, remove_children_found(words, h, a)),
        Work::LiveCount => Answer::of(h, Ok(count_live(words, h))),
        Work::DescendantCount => Answer::of(h, count_nodes(words, h.used, a)),
        Work::Validate => Answer::of(h, Ok(true)),
    }
}
