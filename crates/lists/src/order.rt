// The orders that lists go in: for each the node it begins with, a step from node to node, and which nodes it lists. On any memory.
ghost use Rattle.std.specs.Prelude.{◌≡◌};
ghost use Rattle.lists.specs.Orders.{after_subtree, next_descendant, first_of, keep_b};
ghost use Rattle.lists.specs.OrderLinks.{down_b, near_link, far_link, link_else};

use link::words::{Slot, link_of};

#[derive(Clone, Copy, Debug, PartialEq, Eq)]
pub enum Order {
    Ancestors,
    Predecessors,
    PrecedingSiblings,
    FollowingSiblings,
    Children,
    Descendants,
    Leaves,
}

impl Order {
    // Whether an order goes down from the node, in preorder; the others go by links.
    pub fn goes_down(self) -> bool
        ensures { result ≡ down_b self }
    {
        matches!(self, Order::Descendants | Order::Leaves)
    }

    // The link that such an order goes by.
    pub fn near_link(self) -> u32
        ensures { result ≡ near_link self }
    {
        match self {
            Order::Ancestors => Slot::PARENT,
            Order::Predecessors | Order::PrecedingSiblings => Slot::PREVIOUS,
            Order::FollowingSiblings | Order::Children => Slot::NEXT,
            Order::Descendants | Order::Leaves => Slot::FIRST,
        }
    }

    // The link it goes by where that one is none: for predecessors the parent, for the others the same.
    pub fn far_link(self) -> u32
        ensures { result ≡ far_link self }
    {
        match self {
            Order::Predecessors => Slot::PARENT,
            _ => self.near_link(),
        }
    }

    // All but children begin with the node itself.
    pub fn first_of(self, words: &[u32], x: u32) -> u32
        ensures { result ≡ first_of words.now self x }
    {
        match self {
            Order::Children => link_of(words, x, Slot::FIRST),
            _ => x,
        }
    }

    // Leaves lists nodes without children, the others every node they come to.
    pub fn keeps(self, words: &[u32], x: u32) -> bool
        ensures { result ≡ keep_b words.now self x }
    {
        match self {
            Order::Leaves => link_of(words, x, Slot::FIRST) == 0,
            _ => true,
        }
    }
}

// What comes behind all that is below y: its next sibling, else that of the nearest ancestor that has one, within the root.
fn after_subtree(words: &[u32], root: u32, y: u32, steps: u32) -> u32
    ensures { result ≡ after_subtree steps words.now root y }
{
    let mut at = y;
    for _ in 0..steps {
        if at == root {
            return 0;
        }
        let next = link_of(words, at, Slot::NEXT);
        if next != 0 {
            return next;
        }
        at = link_of(words, at, Slot::PARENT);
    }
    0
}

// The same; a node's own next sibling is asked for before its ancestors'.
fn behind(words: &[u32], root: u32, y: u32, steps: u32) -> u32
    ensures { result ≡ after_subtree steps words.now root y }
{
    if steps == 0 || y == root {
        return 0;
    }
    let next = link_of(words, y, Slot::NEXT);
    if next != 0 {
        return next;
    }
    let parent = link_of(words, y, Slot::PARENT);
    after_subtree(words, root, parent, steps - 1)
}

// The next node in preorder: the first child, else what comes behind.
pub fn next_descendant(words: &[u32], used: u32, root: u32, x: u32) -> u32
    ensures { result ≡ next_descendant words.now used root x }
{
    let first = link_of(words, x, Slot::FIRST);
    if first != 0 {
        return first;
    }
    behind(words, root, x, used)
}

// By one link, else by another.
pub fn link_else(words: &[u32], x: u32, near: u32, far: u32) -> u32
    ensures { result ≡ link_else words.now x near far }
{
    let by_near = link_of(words, x, near);
    if by_near != 0 {
        return by_near;
    }
    link_of(words, x, far)
}
