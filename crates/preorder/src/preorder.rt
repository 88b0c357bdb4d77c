// Preorder with a stack of the siblings still to be visited. It grows downwards in scratch, whose words are zero before and after.
// Whether a node has a next sibling is a matter of values, not of branches: in a tree there is little to predict.
ghost use Rattle.std.specs.Prelude.{◌≡◌, true, ◌*◌, ◌<◌, ◌≤◌, length};
ghost use Rattle.link.specs.Found.{found_b};
ghost use Rattle.rules.specs.Sound.{Sound};
ghost use Rattle.examine.specs.Scratch.{zeroed};
ghost use Rattle.lists.specs.Orders.{ordered};
ghost use Rattle.lists.specs.Storing.{stored_at};
ghost use Rattle.lists.specs.declared.order.Order.TheVariants.{Descendants};
ghost use Rattle.preorder.specs.Stack.{turned};

use link::choice::choose;
use link::header::Header;
use link::words::{Slot, link_of};

// The node that is written next, or none, and where the stack's top is then.
#[derive(Clone, Copy)]
pub struct Turned {
    pub node: u32,
    pub top: usize,
}

// What follows a node: its first child, and the next sibling waits on the stack; without a child the next sibling, or what waits there.
// Scratch and its top are two parameters, as in the definition `turned`: there is no heap, so the stack stands in lent words.
fn turn(words: &[u32], x: u32, scratch: &mut [u32], top: usize) -> Turned
    requires { (0 < top) × (top < length scratch.old) }
    ensures { (scratch.new, result) ≡ turned words.now x scratch.old top }
{
    let first = link_of(words, x, Slot::FIRST);
    let next = link_of(words, x, Slot::NEXT);
    if first != 0 {
        scratch[top - 1] = next;
        return Turned {
            node: first,
            top: choose(next == 0, top, top - 1),
        };
    }
    let waiting = scratch[top];
    scratch[top] = choose(next == 0, 0, waiting);
    Turned {
        node: choose(next == 0, waiting, next),
        top: choose(next == 0, top + 1, top),
    }
}

// Writes a found node and all below it, in preorder, from the list's first place on; how many there are.
pub fn write_preorder(
    words: &[u32],
    h: Header,
    scratch: &mut [u32],
    root: u32,
    list: &mut [u32],
) -> usize
    requires { Sound words.now h × (2 * h.used ≤ length scratch.old) × (zeroed (2 * h.used) scratch.old ≡ scratch.old) × (found_b words.now h.used root ≡ true) × (length (ordered words.now h.used Descendants root) ≤ length list.old) }
    ensures { (scratch.new ≡ scratch.old) × ((list.new, result) ≡ stored_at (ordered words.now h.used Descendants root) list.old 0) }
{
    let used = h.used;
    list[0] = root;
    let mut x = link_of(words, root, Slot::FIRST);
    let mut top = 2 * (used as usize) - 1;
    let mut at: usize = 1;
    // Not by `for`: the nodes end where a turn leads to none, and a count of turns beside that is one test more for each.
    while x != 0 {
        list[at] = x;
        at += 1;
        let after = turn(words, x, scratch, top);
        x = after.node;
        top = after.top;
    }
    at
}
