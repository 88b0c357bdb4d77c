// Where a node is put, once for the four moves and the four value forms.
ghost use Rattle.std.specs.Prelude.{◌≡◌};
ghost use Rattle.moves.specs.Places.{spot};

use link::words::{Slot, link_of};

// Last child of a target, its first child, the sibling after it, the sibling before it.
#[derive(Clone, Copy, Debug, PartialEq, Eq)]
pub enum Place {
    Append,
    Prepend,
    After,
    Before,
}

// Under a parent, between two neighbours; each may be none.
#[derive(Clone, Copy, Debug, PartialEq, Eq)]
pub struct Spot {
    pub parent: u32,
    pub previous: u32,
    pub next: u32,
}

impl Place {
    // By the target's links, as they stand.
    pub fn spot(self, words: &[u32], target: u32) -> Spot
        ensures { result ≡ spot self words.now target }
    {
        match self {
            Place::Append => Spot {
                parent: target,
                previous: link_of(words, target, Slot::LAST),
                next: 0,
            },
            Place::Prepend => Spot {
                parent: target,
                previous: 0,
                next: link_of(words, target, Slot::FIRST),
            },
            Place::After => Spot {
                parent: link_of(words, target, Slot::PARENT),
                previous: target,
                next: link_of(words, target, Slot::NEXT),
            },
            Place::Before => Spot {
                parent: link_of(words, target, Slot::PARENT),
                previous: link_of(words, target, Slot::PREVIOUS),
                next: target,
            },
        }
    }
}
