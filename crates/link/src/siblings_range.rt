// A run of neighbouring siblings, taken out of its chain and put elsewhere, on any memory.
// What runs along the chain takes a budget of steps and says when it was too small.
ghost use Rattle.std.specs.Prelude.{◌≡◌};
ghost use Rattle.link.specs.Siblings.{detach_range, rewrite_parents, transplanted};

use crate::relations::connect_neighbors;
use crate::words::{Slot, link_of, set_link};

// From the first to the last along next.
#[derive(Clone, Copy, Debug, PartialEq, Eq)]
pub struct SiblingsRange {
    pub first: u32,
    pub last: u32,
}

// One that its outer neighbours do not know; its parents are out of date. A type of its own: only it has
// the methods that put a range elsewhere, and who makes one of identifiers says that they stand so.
#[derive(Clone, Copy, Debug, PartialEq, Eq)]
pub struct DetachedSiblingsRange {
    pub first: u32,
    pub last: u32,
}

// Why nodes could not be put somewhere.
#[derive(Clone, Copy, Debug, PartialEq, Eq)]
pub enum ConsistencyError {
    SiblingsLoop,
    ParentChildLoop,
    OutOfSteps,
}

impl SiblingsRange {
    // A range of one node.
    pub fn one(id: u32) -> SiblingsRange
        ensures { (result.first ≡ id) × (result.last ≡ id) }
    {
        SiblingsRange {
            first: id,
            last: id,
        }
    }

    // Joins the neighbours outside the range; siblings inside it stay siblings.
    #[tactic(auto, unfolding(crate::specs::Siblings::detach_range))]
    pub fn detach_from_siblings(self, words: &mut [u32]) -> DetachedSiblingsRange
        ensures { (words.new ≡ detach_range words.old self.first self.last) × (result.first ≡ self.first) × (result.last ≡ self.last) }
    {
        let SiblingsRange { first, last } = self;
        let parent = link_of(words, first, Slot::PARENT);
        let previous = link_of(words, first, Slot::PREVIOUS);
        set_link(words, first, Slot::PREVIOUS, 0);
        let next = link_of(words, last, Slot::NEXT);
        set_link(words, last, Slot::NEXT, 0);
        connect_neighbors(words, parent, previous, next);
        DetachedSiblingsRange { first, last }
    }
}

impl DetachedSiblingsRange {
    // A range of one node that no neighbour knows.
    pub fn one(id: u32) -> DetachedSiblingsRange
        ensures { (result.first ≡ id) × (result.last ≡ id) }
    {
        DetachedSiblingsRange {
            first: id,
            last: id,
        }
    }

    // Names a parent to each node from the first along next; at most `steps` are looked at.
    #[tactic(auto, unfolding(crate::specs::Siblings::rewrite_parents))]
    pub fn rewrite_parents(
        self,
        words: &mut [u32],
        parent: u32,
        steps: u32,
    ) -> Result<(), ConsistencyError>
        ensures { (words.new, result) ≡ rewrite_parents steps words.old self.first parent }
    {
        let mut child = self.first;
        for _ in 0..steps {
            if child == 0 {
                return Ok(());
            }
            if child == parent {
                return Err(ConsistencyError::ParentChildLoop);
            }
            set_link(words, child, Slot::PARENT, parent);
            child = link_of(words, child, Slot::NEXT);
        }
        Err(ConsistencyError::OutOfSteps)
    }

    // Puts the range between two neighbours under a parent.
    #[tactic(auto, unfolding(crate::specs::Siblings::transplanted))]
    pub fn transplant(
        self,
        words: &mut [u32],
        parent: u32,
        previous: u32,
        next: u32,
        steps: u32,
    ) -> Result<(), ConsistencyError>
        ensures { (words.new, result) ≡ transplanted steps words.old self.first self.last parent previous next }
    {
        self.rewrite_parents(words, parent, steps)?;
        connect_neighbors(words, parent, previous, self.first);
        connect_neighbors(words, parent, self.last, next);
        Ok(())
    }
}
