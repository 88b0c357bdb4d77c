// A node, or each of its children, becomes a chain of one. Equal to definitions on any memory; the loop has a budget of steps.
ghost use Rattle.std.specs.Prelude.{◌≡◌, ◌≤◌};
ghost use Rattle.link.specs.Words.{most};
ghost use Rattle.rules.specs.Answers.{answer_kept};
ghost use Rattle.moves.specs.Detach.{detach, scatter, detach_children, detach_node, detach_children_node};

use link::header::Header;
use link::id::found;
use link::siblings_range::SiblingsRange;
use link::words::{Slot, link_of, set_link};
use rules::answer::Refusal;

// The node with its subtree leaves parent and siblings. A range of one has one parent to rewrite.
#[tactic(auto, unfolding(crate::specs::Detach::detach))]
pub fn detach(words: &mut [u32], id: u32)
    ensures { words.new ≡ detach words.old id }
{
    SiblingsRange::one(id).detach_from_siblings(words);
    set_link(words, id, Slot::PARENT, 0);
}

// The nodes from the first along next lose next, previous and parent; at most `steps` of them.
#[tactic(auto, using(crate::specs::LoopLaws::scatter_turns))]
fn scatter(words: &mut [u32], first: u32, steps: u32)
    ensures { words.new ≡ scatter steps words.old first }
{
    let mut child = first;
    for _ in 0..steps {
        if child == 0 {
            return;
        }
        let next = link_of(words, child, Slot::NEXT);
        set_link(words, child, Slot::NEXT, 0);
        set_link(words, child, Slot::PREVIOUS, 0);
        set_link(words, child, Slot::PARENT, 0);
        child = next;
    }
}

#[tactic(auto, unfolding(crate::specs::Detach::detach_children))]
pub fn detach_children(words: &mut [u32], id: u32, steps: u32)
    ensures { words.new ≡ detach_children steps words.old id }
{
    let first = link_of(words, id, Slot::FIRST);
    set_link(words, id, Slot::FIRST, 0);
    set_link(words, id, Slot::LAST, 0);
    scatter(words, first, steps);
}

// The work of `checked_detach`.
#[tactic(auto, unfolding(crate::specs::Detach::detach_node, crate::specs::Detach::name_no, rules::specs::Answers::refusal))]
pub fn detach_node(words: &mut [u32], h: Header, id: u32) -> Result<(), Refusal>
    ensures { (words.new, answer_kept h result) ≡ detach_node words.old h id }
{
    if !found(words, h.used, id) {
        return Err(Refusal::Removed);
    }
    detach(words, id);
    Ok(())
}

// The work of `checked_detach_children`.
#[tactic(auto, unfolding(crate::specs::Detach::detach_children_node, crate::specs::Detach::name_no, rules::specs::Answers::refusal))]
pub fn detach_children_node(words: &mut [u32], h: Header, id: u32) -> Result<(), Refusal>
    requires { h.used ≤ most }
    ensures { (words.new, answer_kept h result) ≡ detach_children_node words.old h id }
{
    if !found(words, h.used, id) {
        return Err(Refusal::Removed);
    }
    detach_children(words, id, h.used + 1);
    Ok(())
}
