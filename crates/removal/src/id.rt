// A found node removed, and what is below it: the changes of the Rust's `id.rs`. Each function equals a definition of specs/, and asks
// for no more than that the node can be freed.
ghost use Rattle.std.specs.Prelude.{◌≡◌, ◌*◌, ◌≤◌, length};
ghost use Rattle.link.specs.Words.{width, most};
ghost use Rattle.removal.specs.Descendants.{front_left, onward, leaf_freed, turn};
ghost use Rattle.removal.specs.Remove.{detached, hoisted, removed, descendants_removed, subtree_removed};
ghost use Rattle.removal.specs.Freeable.{Freeable};

use arena::arena::free_node;
use link::header::Header;
use link::id::found;
use link::siblings_range::SiblingsRange;
use link::words::{Slot, link_of, set_link};

// Where the loop of `remove_descendants` stands: the header, and the cursor. 0 is none, as for every identifier (document 01).
#[derive(Clone, Copy)]
pub struct Turn {
    pub header: Header,
    pub cursor: u32,
}

// The node with its subtree becomes a chain of one. Unlike `detach` of `moves` by the loop over parents, as the definition
// `detached` has it (decision L20).
#[tactic(auto, unfolding(crate::specs::Remove::detached))]
fn detach(words: &mut [u32], id: u32, steps: u32)
    ensures { words.new ≡ detached steps words.old id }
{
    let alone = SiblingsRange::one(id).detach_from_siblings(words);
    let _ = alone.rewrite_parents(words, 0, steps);
}

// The siblings from first to last go between two neighbours under a parent: the arguments of the definition `hoisted`.
#[tactic(auto, unfolding(crate::specs::Remove::hoisted))]
fn hoist(
    words: &mut [u32],
    first: u32,
    last: u32,
    parent: u32,
    previous: u32,
    next: u32,
    steps: u32,
)
    ensures { words.new ≡ hoisted steps words.old first last parent previous next }
{
    if first == 0 || last == 0 {
        return;
    }
    let range = SiblingsRange { first, last };
    let children = range.detach_from_siblings(words);
    let _ = children.transplant(words, parent, previous, next, steps);
}

// A found node goes; its children take its place.
#[tactic(auto, unfolding(crate::specs::Remove::removed))]
pub fn remove(words: &mut [u32], h: Header, id: u32) -> Header
    requires { Freeable words.old h id × (h.used ≤ most) }
    ensures { (words.new, result) ≡ removed words.old h id }
{
    let parent = link_of(words, id, Slot::PARENT);
    let previous = link_of(words, id, Slot::PREVIOUS);
    let next = link_of(words, id, Slot::NEXT);
    let first = link_of(words, id, Slot::FIRST);
    let last = link_of(words, id, Slot::LAST);
    let steps = h.used + 1;
    detach(words, id, steps);
    hoist(words, first, last, parent, previous, next, steps);
    free_node(words, h, id)
}

// The first child of a parent leaves its chain, and next is the first.
#[tactic(auto, unfolding(crate::specs::Descendants::front_left))]
fn leave_front(words: &mut [u32], parent: u32, next: u32)
    ensures { words.new ≡ front_left words.old parent next }
{
    set_link(words, parent, Slot::FIRST, next);
    if next == 0 {
        set_link(words, parent, Slot::LAST, 0);
    }
}

// The next sibling, or the parent where there is none.
#[tactic(auto, unfolding(crate::specs::Descendants::onward))]
fn next_or_parent(next: u32, parent: u32) -> u32
    ensures { result ≡ onward next parent }
{
    if next == 0 { parent } else { next }
}

// A leaf leaves its parent's chain and is freed.
#[tactic(auto, unfolding(crate::specs::Descendants::leaf_freed))]
fn free_leaf(words: &mut [u32], h: Header, leaf: u32) -> Turn
    requires { Freeable words.old h leaf }
    ensures { (words.new, result) ≡ leaf_freed words.old h leaf }
{
    let next = link_of(words, leaf, Slot::NEXT);
    let parent = link_of(words, leaf, Slot::PARENT);
    leave_front(words, parent, next);
    let header = free_node(words, h, leaf);
    let cursor = next_or_parent(next, parent);
    Turn { header, cursor }
}

// One turn of the loop below a node. Header and cursor come apart and go as a `Turn`, as the definition `turn` has it.
#[tactic(auto, using(std::proofs::lemmas::Bool::Decides::nat_tests), unfolding(crate::specs::Descendants::turn))]
fn turn_below(words: &mut [u32], h: Header, id: u32, cursor: u32) -> Turn
    requires { (h.used * width ≤ length words.old) × (h.last ≤ h.used) }
    ensures { (words.new, result) ≡ turn words.old h id cursor }
{
    let first = link_of(words, cursor, Slot::FIRST);
    if first != 0 {
        return Turn {
            header: h,
            cursor: first,
        };
    }
    if cursor == id || !found(words, h.used, cursor) {
        return Turn {
            header: h,
            cursor: 0,
        };
    }
    free_leaf(words, h, cursor)
}

// All below a found node is freed, children first.
pub fn remove_descendants(words: &mut [u32], h: Header, id: u32) -> Header
    requires { Freeable words.old h id × (h.used ≤ most) }
    ensures { (words.new, result) ≡ descendants_removed words.old h id }
{
    let mut at = Turn {
        header: h,
        cursor: id,
    };
    for _ in 0..2 * h.used + 1 {
        if at.cursor == 0 {
            break;
        }
        at = turn_below(words, at.header, id, at.cursor);
    }
    at.header
}

// All below a found node is freed, then the node.
#[tactic(auto, unfolding(crate::specs::Remove::subtree_removed))]
pub fn remove_subtree(words: &mut [u32], h: Header, id: u32) -> Header
    requires { Freeable words.old h id × (h.used ≤ most) }
    ensures { (words.new, result) ≡ subtree_removed words.old h id }
{
    let steps = h.used + 1;
    detach(words, id, steps);
    let header = remove_descendants(words, h, id);
    free_node(words, header, id)
}
