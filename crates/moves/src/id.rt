// The four moves, once over where they put the node: SELF, REMOVED, ANCESTOR, then out and in.
ghost use Rattle.std.specs.Prelude.{◌≡◌, ◌≤◌, length};
ghost use Rattle.link.specs.Words.{capacity_of};
ghost use Rattle.rules.specs.Answers.{number_in, answer_kept};
ghost use Rattle.moves.specs.Moves.{on_path_b, ancestor_or_self_b, move_no, move_words, move_node};

use crate::detach::detach;
use crate::place::Place;
use examine::slots::found_within;
use link::header::Header;
use link::relations::insert_with_neighbors;
use link::words::{Slot, link_of};
use rules::answer::Refusal;

// Whether id is other or one of its ancestors, of which `steps` are looked at; yes as well where these do not suffice.
#[tactic(auto, using(crate::specs::LoopLaws::path_turns))]
fn is_on_path(words: &[u32], id: u32, other: u32, steps: u32) -> bool
    ensures { result ≡ on_path_b steps words.now id other }
{
    let mut at = other;
    for _ in 0..steps {
        if at == 0 {
            return false;
        }
        if at == id {
            return true;
        }
        at = link_of(words, at, Slot::PARENT);
    }
    true
}

// The same. A node without children can only be an ancestor of itself, which spares the walk where a leaf is moved.
#[tactic(auto, unfolding(crate::specs::Moves::ancestor_or_self_b))]
fn is_ancestor_or_self_of(words: &[u32], id: u32, other: u32, steps: u32) -> bool
    ensures { result ≡ ancestor_or_self_b steps words.now id other }
{
    if link_of(words, id, Slot::FIRST) == 0 {
        return id == other;
    }
    is_on_path(words, id, other, steps)
}

// What refuses a move: SELF, REMOVED, ANCESTOR.
#[tactic(auto, using(std::proofs::lemmas::Bool::Decides::nat_tests), unfolding(crate::specs::Moves::move_no, rules::specs::Answers::refusal))]
pub fn move_number(words: &[u32], h: Header, target: u32, moved: u32) -> Result<(), Refusal>
    requires { h.used ≤ capacity_of (length words.now) }
    ensures { number_in result ≡ move_no words.now h target moved }
{
    if target == moved {
        return Err(Refusal::SelfMove);
    }
    if !found_within(words, h.used, target) || !found_within(words, h.used, moved) {
        return Err(Refusal::Removed);
    }
    let parent = link_of(words, target, Slot::PARENT);
    if is_ancestor_or_self_of(words, moved, parent, h.used + 1) {
        return Err(Refusal::Ancestor);
    }
    Ok(())
}

// The moved node is detached first, and neighbours are read after that.
#[tactic(auto, unfolding(crate::specs::Moves::move_words))]
pub fn move_words(words: &mut [u32], place: Place, target: u32, moved: u32, steps: u32)
    ensures { words.new ≡ move_words place steps words.old target moved }
{
    detach(words, moved);
    let to = place.spot(words, target);
    let _ = insert_with_neighbors(words, moved, to.parent, to.previous, to.next, steps);
}

// The work of the four moves.
pub fn move_node(
    words: &mut [u32],
    h: Header,
    place: Place,
    target: u32,
    moved: u32,
) -> Result<(), Refusal>
    requires { h.used ≤ capacity_of (length words.old) }
    ensures { (words.new, answer_kept h result) ≡ move_node place words.old h target moved }
{
    move_number(words, h, target, moved)?;
    move_words(words, place, target, moved, h.used + 1);
    Ok(())
}
