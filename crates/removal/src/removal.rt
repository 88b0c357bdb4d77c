// The public calls: FRAME, SCRATCH, INVALID, then REMOVED, then the change. Each has its work before it, named after a node that is to
// be found, for callers that know already that memory is ready.
ghost use Rattle.std.specs.Prelude.{◌≡◌, ◌≤◌, length};
ghost use Rattle.link.specs.Words.{capacity_of};
ghost use Rattle.rules.specs.Answers.{answer_changed};
ghost use Rattle.sound.specs.Guard.{guarded};
ghost use Rattle.removal.specs.Remove.{remove_node, remove_subtree, remove_children};

use crate::id::{remove, remove_descendants, remove_subtree};
use link::header::Header;
use link::id::found;
use rules::answer::Refusal;
use sound::guard;

// The work of `checked_remove`. The three works are written out: one function over what is done would be longer than the three tests.
#[tactic(auto, unfolding(crate::specs::Remove::remove_node, crate::specs::Remove::when_found, rules::specs::Answers::refusal))]
pub fn remove_found(words: &mut [u32], h: Header, id: u32) -> Result<Header, Refusal>
    requires { (h.used ≤ capacity_of (length words.old)) × (h.last ≤ h.used) }
    ensures { (words.new, answer_changed h result) ≡ remove_node words.old h id }
{
    if !found(words, h.used, id) {
        return Err(Refusal::Removed);
    }
    Ok(remove(words, h, id))
}

// The work of `checked_remove_subtree`.
#[tactic(auto, unfolding(crate::specs::Remove::remove_subtree, crate::specs::Remove::when_found, rules::specs::Answers::refusal))]
pub fn remove_subtree_found(words: &mut [u32], h: Header, id: u32) -> Result<Header, Refusal>
    requires { (h.used ≤ capacity_of (length words.old)) × (h.last ≤ h.used) }
    ensures { (words.new, answer_changed h result) ≡ remove_subtree words.old h id }
{
    if !found(words, h.used, id) {
        return Err(Refusal::Removed);
    }
    Ok(remove_subtree(words, h, id))
}

// The work of `remove_children`.
#[tactic(auto, unfolding(crate::specs::Remove::remove_children, crate::specs::Remove::when_found, rules::specs::Answers::refusal))]
pub fn remove_children_found(words: &mut [u32], h: Header, id: u32) -> Result<Header, Refusal>
    requires { (h.used ≤ capacity_of (length words.old)) × (h.last ≤ h.used) }
    ensures { (words.new, answer_changed h result) ≡ remove_children words.old h id }
{
    if !found(words, h.used, id) {
        return Err(Refusal::Removed);
    }
    Ok(remove_descendants(words, h, id))
}

// The children, in order, take the node's place between its neighbours under its parent; those of a parentless node stay together.
pub fn checked_remove(
    words: &mut [u32],
    h: Header,
    scratch: &mut [u32],
    id: u32,
) -> Result<Header, Refusal>
    ensures { (words.new, scratch.new, answer_changed h result) ≡ guarded words.old h scratch.old (remove_node words.old h id) }
{
    guard(words, h, scratch)?;
    remove_found(words, h, id)
}

// The subtree is freed children first, left to right, the named node last.
pub fn checked_remove_subtree(
    words: &mut [u32],
    h: Header,
    scratch: &mut [u32],
    id: u32,
) -> Result<Header, Refusal>
    ensures { (words.new, scratch.new, answer_changed h result) ≡ guarded words.old h scratch.old (remove_subtree words.old h id) }
{
    guard(words, h, scratch)?;
    remove_subtree_found(words, h, id)
}

// The same without the node.
pub fn remove_children(
    words: &mut [u32],
    h: Header,
    scratch: &mut [u32],
    id: u32,
) -> Result<Header, Refusal>
    ensures { (words.new, scratch.new, answer_changed h result) ≡ guarded words.old h scratch.old (remove_children words.old h id) }
{
    guard(words, h, scratch)?;
    remove_children_found(words, h, id)
}
