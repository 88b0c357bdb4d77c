// Where a walk stands, as two numbers for callers from outside: the next edge as a list has it, and the mark.
// These are the numbers of the C interface, which keeps a walk in words that its caller lends.
ghost use Rattle.std.specs.Prelude.{◌≡◌};
ghost use Rattle.walk.specs.Edges.{mark_of};
ghost use Rattle.walk.specs.Codes.{code_if_found, edge_word, edge_of, step_of};

use crate::edge::{Edge, Step};
use link::id::found;

// Functions and no `From`: a step is two numbers, of which the first depends on memory too (`edge_word`).

// More, over or broken.
pub fn mark_of(next: Step) -> u32
    ensures { result ≡ mark_of next }
{
    match next {
        Step::Edge(_) => 0,
        Step::Over => 1,
        Step::Broken => 2,
    }
}

// An edge as a list has it, where its identifier is found; else 0.
#[tactic(auto, unfolding(crate::specs::Codes::code_if_found))]
fn code_if_found(words: &[u32], used: u32, e: Edge) -> u32
    ensures { result ≡ code_if_found words.now used e }
{
    if found(words, used, e.id()) {
        return e.code();
    }
    0
}

// The next edge, 0 where there is none.
#[tactic(auto, unfolding(crate::specs::Codes::edge_word))]
pub fn edge_word(words: &[u32], used: u32, next: Step) -> u32
    ensures { result ≡ edge_word words.now used next }
{
    match next {
        Step::Edge(e) => code_if_found(words, used, e),
        _ => 0,
    }
}

#[tactic(auto, unfolding(crate::specs::Codes::edge_of))]
fn edge_of(word: u32) -> Edge
    ensures { result ≡ edge_of word }
{
    if word % 65536 < 32768 {
        return Edge::Start(word);
    }
    Edge::End(word - 32768)
}

// Back again; a mark above 2 counts as broken.
#[tactic(auto, unfolding(crate::specs::Codes::step_of))]
pub fn step_of(word: u32, mark: u32) -> Step
    ensures { result ≡ step_of word mark }
{
    match mark {
        0 => Step::Edge(edge_of(word)),
        1 => Step::Over,
        _ => Step::Broken,
    }
}
