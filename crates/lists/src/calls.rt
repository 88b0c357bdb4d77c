// Document 01's lists as calls on any memory, each over one guard: FRAME, SCRATCH, INVALID, then REMOVED, then ROOM. Descendants stand in the
// crate `preorder`, over the same definition.
ghost use Rattle.std.specs.Prelude.{◌≡◌};
ghost use Rattle.rules.specs.Answers.{reply_of};
ghost use Rattle.sound.specs.Guard.{guarded_read};
ghost use Rattle.lists.specs.Listing.{listed, levels_listed, counted, guarded_list};
ghost use Rattle.lists.specs.declared.order.Order.TheVariants.{Ancestors, Predecessors, PrecedingSiblings, FollowingSiblings, Children, Leaves};

use crate::levels::list_levels;
use crate::lists::{count_nodes, list_nodes};
use crate::order::Order;
use link::header::Header;
use rules::answer::Refusal;
use sound::guard;

// A list by an order.
fn guarded_list(
    words: &[u32],
    h: Header,
    scratch: &mut [u32],
    order: Order,
    root: u32,
    list: &mut [u32],
) -> Result<u32, Refusal>
    ensures { (scratch.new, list.new, reply_of result) ≡ guarded_list words.now h scratch.old list.old (listed words.now h.used order root list.old) }
{
    guard(words, h, scratch)?;
    list_nodes(words, h.used, order, root, list)
}

// The node and all below it that have no children.
pub fn leaves(
    words: &[u32],
    h: Header,
    scratch: &mut [u32],
    id: u32,
    list: &mut [u32],
) -> Result<u32, Refusal>
    ensures { (scratch.new, list.new, reply_of result) ≡ guarded_list words.now h scratch.old list.old (listed words.now h.used Leaves id list.old) }
{
    guarded_list(words, h, scratch, Order::Leaves, id, list)
}

// The node, its parent, and so on up.
pub fn ancestors(
    words: &[u32],
    h: Header,
    scratch: &mut [u32],
    id: u32,
    list: &mut [u32],
) -> Result<u32, Refusal>
    ensures { (scratch.new, list.new, reply_of result) ≡ guarded_list words.now h scratch.old list.old (listed words.now h.used Ancestors id list.old) }
{
    guarded_list(words, h, scratch, Order::Ancestors, id, list)
}

// The children in order, without the node.
pub fn children(
    words: &[u32],
    h: Header,
    scratch: &mut [u32],
    id: u32,
    list: &mut [u32],
) -> Result<u32, Refusal>
    ensures { (scratch.new, list.new, reply_of result) ≡ guarded_list words.now h scratch.old list.old (listed words.now h.used Children id list.old) }
{
    guarded_list(words, h, scratch, Order::Children, id, list)
}

// The node and the siblings after it.
pub fn following_siblings(
    words: &[u32],
    h: Header,
    scratch: &mut [u32],
    id: u32,
    list: &mut [u32],
) -> Result<u32, Refusal>
    ensures { (scratch.new, list.new, reply_of result) ≡ guarded_list words.now h scratch.old list.old (listed words.now h.used FollowingSiblings id list.old) }
{
    guarded_list(words, h, scratch, Order::FollowingSiblings, id, list)
}

// The node and the siblings before it, the nearest first.
pub fn preceding_siblings(
    words: &[u32],
    h: Header,
    scratch: &mut [u32],
    id: u32,
    list: &mut [u32],
) -> Result<u32, Refusal>
    ensures { (scratch.new, list.new, reply_of result) ≡ guarded_list words.now h scratch.old list.old (listed words.now h.used PrecedingSiblings id list.old) }
{
    guarded_list(words, h, scratch, Order::PrecedingSiblings, id, list)
}

// The node, then the previous sibling, else the parent, and so on.
pub fn predecessors(
    words: &[u32],
    h: Header,
    scratch: &mut [u32],
    id: u32,
    list: &mut [u32],
) -> Result<u32, Refusal>
    ensures { (scratch.new, list.new, reply_of result) ≡ guarded_list words.now h scratch.old list.old (listed words.now h.used Predecessors id list.old) }
{
    guarded_list(words, h, scratch, Order::Predecessors, id, list)
}

// The node and all below it, level by level.
pub fn breadth_first(
    words: &[u32],
    h: Header,
    scratch: &mut [u32],
    id: u32,
    list: &mut [u32],
) -> Result<u32, Refusal>
    ensures { (scratch.new, list.new, reply_of result) ≡ guarded_list words.now h scratch.old list.old (levels_listed words.now h.used id list.old) }
{
    guard(words, h, scratch)?;
    list_levels(words, h.used, id, list)
}

// How many nodes there are from a node down, the node with them.
pub fn descendant_count(
    words: &[u32],
    h: Header,
    scratch: &mut [u32],
    id: u32,
) -> Result<u32, Refusal>
    ensures { (scratch.new, reply_of result) ≡ guarded_read words.now h scratch.old (counted words.now h.used id) }
{
    guard(words, h, scratch)?;
    count_nodes(words, h.used, id)
}
