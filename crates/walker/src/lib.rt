// The walk in the form that document 01 names: a struct that holds the memory it reads, the root and the next edge.
// Its two functions make and step it; `walk_next` has plain parameters and serves every other caller.

#![tactic(auto)]

ghost use Rattle.std.specs.Prelude.{◌≡◌};
ghost use Rattle.walk.specs.Edges.{step_from};

use walk::edge::{Edge, Step, step_from};

// The node words, how many slots are in use, the root, and the edge that is next.
#[derive(Clone, Copy)]
pub struct Walker<'a> {
    pub words: &'a [u32],
    pub used: u32,
    pub root: u32,
    pub next: Edge,
}

impl<'a> Walker<'a> {
    pub fn new(words: &'a [u32], used: u32, root: u32, next: Edge) -> Walker<'a>
        ensures { (result.words ≡ words.entry) × (result.used ≡ used) × (result.root ≡ root) × (result.next ≡ next) }
    {
        Walker {
            words,
            used,
            root,
            next,
        }
    }

    // What comes after the next edge, or broken where that edge is not found.
    pub fn next(self) -> Step
        ensures { result ≡ step_from self.entry.words.now self.entry.used self.entry.root self.entry.next }
    {
        step_from(self.words, self.used, self.root, self.next)
    }
}

// From a slice to a walker and back: whoever calls this needs no walk by hand.
pub fn walk_next(words: &[u32], used: u32, root: u32, next: Edge) -> Step
    ensures { result ≡ step_from words.now used root next }
{
    Walker::new(words, used, root, next).next()
}
