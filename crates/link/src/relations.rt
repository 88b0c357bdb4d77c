// Keeping parent, children and siblings consistent when a node is put between neighbours, on any memory.
// Each function equals a definition on lists of words; what runs along a chain takes a budget of steps.
ghost use Rattle.std.specs.Prelude.{◌≡◌};
ghost use Rattle.link.specs.Relations.{first_after, last_after, connect_neighbors};
ghost use Rattle.link.specs.Siblings.{insert_with_neighbors, insert_last, insert_first};

use crate::siblings_range::{ConsistencyError, DetachedSiblingsRange, SiblingsRange};
use crate::words::{Slot, link_of, set_link};

// The first child of a parent whose first child was `old`, once previous and next are neighbours under it.
#[tactic(auto, unfolding(crate::specs::Relations::first_after))]
fn first_after(old: u32, previous: u32, next: u32) -> u32
    ensures { result ≡ first_after old previous next }
{
    if previous == 0 {
        return next;
    }
    if old == 0 {
        return previous;
    }
    old
}

// The last child, likewise: the mirror image.
#[tactic(auto, unfolding(crate::specs::Relations::last_after))]
fn last_after(old: u32, previous: u32, next: u32) -> u32
    ensures { result ≡ last_after old previous next }
{
    first_after(old, next, previous)
}

// Makes previous and next neighbours under a parent; each of the three may be none. They stay three arguments, here and
// below, as in the definitions: `transplant` puts an end of a range in place of a neighbour, and `Spot` stands in a crate above.
//
//    parent
//     /  \
// prev -> next
#[tactic(auto, unfolding(crate::specs::Relations::connect_neighbors))]
pub fn connect_neighbors(words: &mut [u32], parent: u32, previous: u32, next: u32)
    ensures { words.new ≡ connect_neighbors words.old parent previous next }
{
    let first = first_after(link_of(words, parent, Slot::FIRST), previous, next);
    let last = last_after(link_of(words, parent, Slot::LAST), previous, next);
    set_link(words, previous, Slot::NEXT, next);
    set_link(words, next, Slot::PREVIOUS, previous);
    set_link(words, parent, Slot::FIRST, first);
    set_link(words, parent, Slot::LAST, last);
}

// Detaches a node from its siblings and puts it between two neighbours under a parent.
#[tactic(auto, unfolding(crate::specs::Siblings::insert_with_neighbors))]
pub fn insert_with_neighbors(
    words: &mut [u32],
    new: u32,
    parent: u32,
    previous: u32,
    next: u32,
    steps: u32,
) -> Result<(), ConsistencyError>
    ensures { (words.new, result) ≡ insert_with_neighbors steps words.old new parent previous next }
{
    if previous == new || next == new {
        return Err(ConsistencyError::SiblingsLoop);
    }
    if parent == new {
        return Err(ConsistencyError::ParentChildLoop);
    }
    let detached = SiblingsRange::one(new).detach_from_siblings(words);
    detached.transplant(words, parent, previous, next, steps)
}

// Puts a detached node after all children of a parent.
#[tactic(auto, unfolding(crate::specs::Siblings::insert_last))]
pub fn insert_last_unchecked(
    words: &mut [u32],
    new: u32,
    parent: u32,
    steps: u32,
) -> Result<(), ConsistencyError>
    ensures { (words.new, result) ≡ insert_last steps words.old new parent }
{
    let previous = link_of(words, parent, Slot::LAST);
    DetachedSiblingsRange::one(new).transplant(words, parent, previous, 0, steps)
}

// Puts a detached node before all children of a parent. The mirror image of the function above: one over the end, for both definitions,
// would choose a link and the order of two arguments, which is no plainer.
#[tactic(auto, unfolding(crate::specs::Siblings::insert_first))]
pub fn insert_first_unchecked(
    words: &mut [u32],
    new: u32,
    parent: u32,
    steps: u32,
) -> Result<(), ConsistencyError>
    ensures { (words.new, result) ≡ insert_first steps words.old new parent }
{
    let next = link_of(words, parent, Slot::FIRST);
    DetachedSiblingsRange::one(new).transplant(words, parent, 0, next, steps)
}
