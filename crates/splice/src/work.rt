// The work of the changes that move or remove a node, on ready memory: each equals the definition of the crate whose call it serves.
// Words and header stay apart, though each asks that they are ready: the caller lends the words, and keeps the header after a refusal.
ghost use Rattle.std.specs.Prelude.{◌≡◌, ◌≤◌, length};
ghost use Rattle.link.specs.Words.{capacity_of};
ghost use Rattle.rules.specs.Answers.{answer_kept, answer_changed, answer_created};
ghost use Rattle.rules.specs.Sound.{Ready};
ghost use Rattle.moves.specs.Detach.{detach_node};
ghost use Rattle.moves.specs.Moves.{move_node};
ghost use Rattle.moves.specs.Values.{value_node};
ghost use Rattle.removal.specs.Remove.{remove_node, remove_subtree};
ghost use Rattle.splice.specs.Splice.{Within, PlaceWithin};
ghost use Rattle.splice.specs.Hoist.{Ends, hoisted_in};

use crate::splice::{put_in, take_out, tie_in};
use crate::spot::spot;
use arena::arena::{create, free_node};
use examine::slots::found_within;
use link::header::Header;
use link::id::slot_of;
use link::siblings_range::{DetachedSiblingsRange, SiblingsRange};
use link::words::{Slot, get_word, set_word};
use moves::id::move_number;
use moves::place::{Place, Spot};
use removal::id::remove_descendants;
use rules::answer::{Created, Refusal};

pub fn detach_ready(words: &mut [u32], h: Header, id: u32) -> Result<(), Refusal>
    requires { Ready words.old h × (h.used ≤ capacity_of (length words.old)) }
    ensures { (words.new, answer_kept h result) ≡ detach_node words.old h id }
{
    if !found_within(words, h.used, id) {
        return Err(Refusal::Removed);
    }
    take_out(words, id);
    Ok(())
}

// The moved node is taken out first, and neighbours are read after that.
pub fn move_ready(
    words: &mut [u32],
    h: Header,
    place: Place,
    target: u32,
    moved: u32,
) -> Result<(), Refusal>
    requires { Ready words.old h × (h.used ≤ capacity_of (length words.old)) }
    ensures { (words.new, answer_kept h result) ≡ move_node place words.old h target moved }
{
    move_number(words, h, target, moved)?;
    // The target's parent. Read before the writes, which do not change it: so it need not wait for them.
    let above = get_word(words, slot_of(target), Slot::PARENT);
    take_out(words, moved);
    let to = spot(words, place, target, above);
    put_in(words, moved, to);
    Ok(())
}

pub fn value_ready(
    words: &mut [u32],
    h: Header,
    place: Place,
    target: u32,
    number: u32,
) -> Result<Created, Refusal>
    requires { Ready words.old h × (h.used ≤ capacity_of (length words.old)) }
    ensures { (words.new, answer_created h result) ≡ value_node place words.old h target number }
{
    if !found_within(words, h.used, target) {
        return Err(Refusal::Removed);
    }
    // The target's parent. Read before the writes, which do not change it: so it need not wait for them.
    let above = get_word(words, slot_of(target), Slot::PARENT);
    let made = create(words, h, number)?;
    let to = spot(words, place, target, above);
    put_in(words, made.id, to);
    Ok(made)
}

// The children of a node that is taken out already come to where it stood, once each of them names its new parent.
fn hoist(words: &mut [u32], id: u32, children: SiblingsRange, to: Spot, steps: u32)
    requires { Within words.old id × Ends words.old children.first children.last × PlaceWithin words.old to }
    ensures { words.new ≡ hoisted_in steps words.old id children.first children.last to.parent to.previous to.next }
{
    let SiblingsRange { first, last } = children;
    if first == 0 {
        return;
    }
    let slot = slot_of(id);
    set_word(words, slot, Slot::FIRST, 0);
    set_word(words, slot, Slot::LAST, 0);
    let free = DetachedSiblingsRange { first, last };
    if free.rewrite_parents(words, to.parent, steps).is_ok() {
        tie_in(words, first, last, to);
    }
}

pub fn remove_ready(words: &mut [u32], h: Header, id: u32) -> Result<Header, Refusal>
    requires { Ready words.old h × (h.used ≤ capacity_of (length words.old)) }
    ensures { (words.new, answer_changed h result) ≡ remove_node words.old h id }
{
    if !found_within(words, h.used, id) {
        return Err(Refusal::Removed);
    }
    let slot = slot_of(id);
    let to = Spot {
        parent: get_word(words, slot, Slot::PARENT),
        previous: get_word(words, slot, Slot::PREVIOUS),
        next: get_word(words, slot, Slot::NEXT),
    };
    let children = SiblingsRange {
        first: get_word(words, slot, Slot::FIRST),
        last: get_word(words, slot, Slot::LAST),
    };
    take_out(words, id);
    hoist(words, id, children, to, h.used + 1);
    Ok(free_node(words, h, id))
}

pub fn remove_subtree_ready(words: &mut [u32], h: Header, id: u32) -> Result<Header, Refusal>
    requires { Ready words.old h × (h.used ≤ capacity_of (length words.old)) }
    ensures { (words.new, answer_changed h result) ≡ remove_subtree words.old h id }
{
    if !found_within(words, h.used, id) {
        return Err(Refusal::Removed);
    }
    take_out(words, id);
    let below = remove_descendants(words, h, id);
    Ok(free_node(words, below, id))
}
