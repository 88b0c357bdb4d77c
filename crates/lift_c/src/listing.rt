// The eight lists, and the descendant count.
ghost use Rattle.std.specs.Prelude.{◌≡◌};
ghost use Rattle.rules.specs.Answers.{reply};
ghost use Rattle.sound.specs.Guard.{guarded_read};
ghost use Rattle.lists.specs.Listing.{listed, levels_listed, counted, guarded_list};
ghost use Rattle.lists.specs.declared.order.Order.TheVariants.{Ancestors, Predecessors, PrecedingSiblings, FollowingSiblings, Children, Descendants, Leaves};
ghost use Rattle.lift_c.specs.Face.{header_of};

use crate::packing::{header_of, put_reply};
use lists::calls::{
    ancestors, breadth_first, children, descendant_count, following_siblings, leaves,
    preceding_siblings, predecessors,
};
use preorder::calls::descendants;

// The node and all below it, in preorder.
pub fn lift_descendants(
    words: &[u32],
    header: &[u32; 3],
    scratch: &mut [u32],
    id: u32,
    list: &mut [u32],
    res: &mut u32,
) -> u32
    ensures { (scratch.new, list.new, reply result res.new) ≡ guarded_list words.now (header_of header.now) scratch.old list.old (listed words.now (header_of header.now).used Descendants id list.old) }
{
    let h = header_of(header);
    put_reply(res, descendants(words, h, scratch, id, list))
}

// Those of them that have no children.
pub fn lift_leaves(
    words: &[u32],
    header: &[u32; 3],
    scratch: &mut [u32],
    id: u32,
    list: &mut [u32],
    res: &mut u32,
) -> u32
    ensures { (scratch.new, list.new, reply result res.new) ≡ guarded_list words.now (header_of header.now) scratch.old list.old (listed words.now (header_of header.now).used Leaves id list.old) }
{
    let h = header_of(header);
    put_reply(res, leaves(words, h, scratch, id, list))
}

// The node, its parent, and so on up.
pub fn lift_ancestors(
    words: &[u32],
    header: &[u32; 3],
    scratch: &mut [u32],
    id: u32,
    list: &mut [u32],
    res: &mut u32,
) -> u32
    ensures { (scratch.new, list.new, reply result res.new) ≡ guarded_list words.now (header_of header.now) scratch.old list.old (listed words.now (header_of header.now).used Ancestors id list.old) }
{
    let h = header_of(header);
    put_reply(res, ancestors(words, h, scratch, id, list))
}

// The children in order, without the node.
pub fn lift_children(
    words: &[u32],
    header: &[u32; 3],
    scratch: &mut [u32],
    id: u32,
    list: &mut [u32],
    res: &mut u32,
) -> u32
    ensures { (scratch.new, list.new, reply result res.new) ≡ guarded_list words.now (header_of header.now) scratch.old list.old (listed words.now (header_of header.now).used Children id list.old) }
{
    let h = header_of(header);
    put_reply(res, children(words, h, scratch, id, list))
}

// The node and the siblings after it.
pub fn lift_following_siblings(
    words: &[u32],
    header: &[u32; 3],
    scratch: &mut [u32],
    id: u32,
    list: &mut [u32],
    res: &mut u32,
) -> u32
    ensures { (scratch.new, list.new, reply result res.new) ≡ guarded_list words.now (header_of header.now) scratch.old list.old (listed words.now (header_of header.now).used FollowingSiblings id list.old) }
{
    let h = header_of(header);
    put_reply(res, following_siblings(words, h, scratch, id, list))
}

// The node and the siblings before it, the nearest first.
pub fn lift_preceding_siblings(
    words: &[u32],
    header: &[u32; 3],
    scratch: &mut [u32],
    id: u32,
    list: &mut [u32],
    res: &mut u32,
) -> u32
    ensures { (scratch.new, list.new, reply result res.new) ≡ guarded_list words.now (header_of header.now) scratch.old list.old (listed words.now (header_of header.now).used PrecedingSiblings id list.old) }
{
    let h = header_of(header);
    put_reply(res, preceding_siblings(words, h, scratch, id, list))
}

// The node, then the previous sibling, else the parent, and so on.
pub fn lift_predecessors(
    words: &[u32],
    header: &[u32; 3],
    scratch: &mut [u32],
    id: u32,
    list: &mut [u32],
    res: &mut u32,
) -> u32
    ensures { (scratch.new, list.new, reply result res.new) ≡ guarded_list words.now (header_of header.now) scratch.old list.old (listed words.now (header_of header.now).used Predecessors id list.old) }
{
    let h = header_of(header);
    put_reply(res, predecessors(words, h, scratch, id, list))
}

// The node and all below it, level by level.
pub fn lift_breadth_first(
    words: &[u32],
    header: &[u32; 3],
    scratch: &mut [u32],
    id: u32,
    list: &mut [u32],
    res: &mut u32,
) -> u32
    ensures { (scratch.new, list.new, reply result res.new) ≡ guarded_list words.now (header_of header.now) scratch.old list.old (levels_listed words.now (header_of header.now).used id list.old) }
{
    let h = header_of(header);
    put_reply(res, breadth_first(words, h, scratch, id, list))
}

// How many nodes there are from a node down, the node with them.
pub fn lift_descendant_count(
    words: &[u32],
    header: &[u32; 3],
    scratch: &mut [u32],
    id: u32,
    res: &mut u32,
) -> u32
    ensures { (scratch.new, reply result res.new) ≡ guarded_read words.now (header_of header.now) scratch.old (counted words.now (header_of header.now).used id) }
{
    let h = header_of(header);
    put_reply(res, descendant_count(words, h, scratch, id))
}
