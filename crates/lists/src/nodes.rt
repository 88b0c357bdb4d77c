// The nodes of a list, one after another: down from a node in preorder, or by links. On any memory.
ghost use Rattle.std.specs.Prelude.{◌≡◌, false};
ghost use Rattle.std.specs.Iterator.{YieldsFirst, item_count};
ghost use Rattle.lists.specs.Orders.{along, next_descendant, ordered};
ghost use Rattle.lists.specs.OrderLinks.{down_b};
ghost use Rattle.lists.specs.Nodes.{below_left, along_left};

use crate::order::{Order, link_else, next_descendant};

// Down in preorder within a root: the next node, and how many can still come.
#[derive(Clone, Copy)]
pub struct Below<'a> {
    pub words: &'a [u32],
    pub used: u32,
    pub root: u32,
    pub next: u32,
    pub left: u32,
}

impl<'a> Below<'a> {
    // The root and all below it.
    pub fn of(words: &'a [u32], used: u32, root: u32) -> Below<'a>
        ensures { below_left result ≡ along (next_descendant words.now used root) used root }
    {
        Below {
            words,
            used,
            root,
            next: root,
            left: used,
        }
    }
}

impl<'a> Iterator for Below<'a> {
    type Item = u32;

    ghost next_gives = { YieldsFirst below_left };

    ghost remaining = { item_count below_left };

    fn next(&mut self) -> Option<u32> {
        if self.left == 0 || self.next == 0 {
            return None;
        }
        let x = self.next;
        self.left -= 1;
        // Behind the last node that can be, no step is asked for.
        if self.left != 0 {
            self.next = next_descendant(self.words, self.used, self.root, x);
        }
        Some(x)
    }
}

// By one link, and where that is none by another: the next node, and how many can still come.
#[derive(Clone, Copy)]
pub struct Along<'a> {
    pub words: &'a [u32],
    pub near: u32,
    pub far: u32,
    pub next: u32,
    pub left: u32,
}

impl<'a> Along<'a> {
    // The list by an order that goes by links.
    pub fn of(words: &'a [u32], used: u32, order: Order, root: u32) -> Along<'a>
        ensures { down_b order ≡ false → along_left result ≡ ordered words.now used order root }
    {
        Along {
            words,
            near: order.near_link(),
            far: order.far_link(),
            next: order.first_of(words, root),
            left: used,
        }
    }
}

impl<'a> Iterator for Along<'a> {
    type Item = u32;

    ghost next_gives = { YieldsFirst along_left };

    ghost remaining = { item_count along_left };

    fn next(&mut self) -> Option<u32> {
        if self.left == 0 || self.next == 0 {
            return None;
        }
        let x = self.next;
        self.next = link_else(self.words, x, self.near, self.far);
        self.left -= 1;
        Some(x)
    }
}
