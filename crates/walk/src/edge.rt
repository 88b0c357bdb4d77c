// Edges of a walk, what follows each, and where a walk stands. On any memory.
ghost use Rattle.std.specs.Prelude.{◌≡◌, ◌+◌, ◌<◌};
ghost use Rattle.walk.specs.Edges.{edge_id, edge_code, next_traverse, next_of_next, step_from};

use link::id::found;
use link::words::{Slot, link_of};

// The start or the end of visiting a node.
#[derive(Clone, Copy, Debug, PartialEq, Eq)]
pub enum Edge {
    Start(u32),
    End(u32),
}

// What a step comes to: an edge, the end of the walk, or an edge whose identifier is not found. An enum of its own and no `Result` of an
// `Option`: the definitions of specs/Edges and the marks of C tell these three cases apart.
#[derive(Clone, Copy, Debug, PartialEq, Eq)]
pub enum Step {
    Edge(Edge),
    Over,
    Broken,
}

impl Edge {
    pub fn id(self) -> u32
        ensures { result ≡ edge_id self }
    {
        match self {
            Edge::Start(id) | Edge::End(id) => id,
        }
    }

    // As a list has it: Start is the identifier, End that plus 32,768.
    pub fn code(self) -> u32
        requires { edge_id self + 32768 < 4294967296 }
        ensures { result ≡ edge_code self }
    {
        match self {
            Edge::Start(id) => id,
            Edge::End(id) => id + 32768,
        }
    }
}

// Into the first child, else back; from there to the next sibling, else up to the parent.
#[tactic(auto, unfolding(crate::specs::Edges::next_traverse))]
pub fn next_traverse(words: &[u32], e: Edge) -> Step
    ensures { result ≡ next_traverse words.now e }
{
    match e {
        Edge::Start(id) => {
            let child = link_of(words, id, Slot::FIRST);
            if child == 0 {
                return Step::Edge(Edge::End(id));
            }
            Step::Edge(Edge::Start(child))
        }
        Edge::End(id) => {
            let next = link_of(words, id, Slot::NEXT);
            if next != 0 {
                return Step::Edge(Edge::Start(next));
            }
            let parent = link_of(words, id, Slot::PARENT);
            if parent != 0 {
                return Step::Edge(Edge::End(parent));
            }
            Step::Over
        }
    }
}

// The same, except that nothing follows End of the root.
#[tactic(auto, unfolding(crate::specs::Edges::next_of_next))]
pub fn next_of_next(words: &[u32], root: u32, e: Edge) -> Step
    ensures { result ≡ next_of_next words.now root e }
{
    match e {
        Edge::End(id) if id == root => Step::Over,
        _ => next_traverse(words, e),
    }
}

// One step from the edge that is next: broken where its identifier is not found, else what follows it.
#[tactic(auto, unfolding(crate::specs::Edges::step_from))]
pub fn step_from(words: &[u32], used: u32, root: u32, next: Edge) -> Step
    ensures { result ≡ step_from words.now used root next }
{
    if found(words, used, next.id()) {
        return next_of_next(words, root, next);
    }
    Step::Broken
}
