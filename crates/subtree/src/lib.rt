// Two subtrees compared, of one memory or of two: equal when they have the same shape and the same numbers. Words are only read.

#![tactic(auto)]

ghost use Rattle.std.specs.Prelude.{◌≡◌, ◌+◌, ◌*◌, ◌≤◌};
ghost use Rattle.rules.specs.Answers.{reply_yes};
ghost use Rattle.walk.specs.declared.edge.Edge.TheVariants.{Start};
ghost use Rattle.subtree.specs.Compare.{alike, together, compare_step, compare_run, compared, subtrees_compared};

// Words, root and edge stay parameters of their own, for both memories: a type that held the words would hold a reference, and contracts
// over it would be assertions of the logic, as those of `Walker`. The definitions (`compare_step`) take them so.

use link::header::Header;
use link::id::found;
use link::words::{Slot, link_of};
use rules::answer::Refusal;
use sound::guard;
use walk::edge::{Edge, Step, next_of_next};

// Where two walks stand that go on together. Not an Option or a Result: they end as the same or as different, and the names say which.
#[derive(Clone, Copy, Debug, PartialEq, Eq)]
pub enum Together {
    On(Edge, Edge),
    Same,
    Different,
}

// Two edges: both starts, of nodes with one number, or both ends.
#[tactic(auto, unfolding(crate::specs::Compare::alike))]
fn edges_alike(words: &[u32], e: Edge, others: &[u32], f: Edge) -> bool
    ensures { result ≡ alike words.now e others.now f }
{
    match (e, f) {
        (Edge::Start(x), Edge::Start(y)) => {
            link_of(words, x, Slot::NUMBER) == link_of(others, y, Slot::NUMBER)
        }
        (Edge::End(_), Edge::End(_)) => true,
        _ => false,
    }
}

// Both go on, both are over, or neither.
#[tactic(auto, unfolding(crate::specs::Compare::together))]
fn walks_together(s: Step, t: Step) -> Together
    ensures { result ≡ together s t }
{
    match (s, t) {
        (Step::Edge(e), Step::Edge(f)) => Together::On(e, f),
        (Step::Over, Step::Over) => Together::Same,
        _ => Together::Different,
    }
}

// One step of both.
#[tactic(auto, unfolding(crate::specs::Compare::compare_step))]
fn step_together(
    words: &[u32],
    root: u32,
    e: Edge,
    others: &[u32],
    other_root: u32,
    f: Edge,
) -> Together
    ensures { result ≡ compare_step words.now root e others.now other_root f }
{
    if !edges_alike(words, e, others, f) {
        return Together::Different;
    }
    walks_together(
        next_of_next(words, root, e),
        next_of_next(others, other_root, f),
    )
}

// Both walks from the start, at most so many steps.
fn walks_equal(words: &[u32], root: u32, others: &[u32], other_root: u32, steps: u32) -> bool
    ensures { result ≡ compare_run steps words.now root (Start root) others.now other_root (Start other_root) }
{
    let mut e = Edge::Start(root);
    let mut f = Edge::Start(other_root);
    for _ in 0..steps {
        match step_together(words, root, e, others, other_root, f) {
            Together::On(g, h) => {
                e = g;
                f = h;
            }
            Together::Same => {
                return true;
            }
            Together::Different => {
                return false;
            }
        }
    }
    false
}

// On ready memories: REMOVED where either identifier is not found.
#[tactic(auto, unfolding(crate::specs::Compare::compared, rules::specs::Answers::refusal))]
pub fn compare_nodes(
    words: &[u32],
    used: u32,
    id: u32,
    others: &[u32],
    other_used: u32,
    other_id: u32,
) -> Result<bool, Refusal>
    requires { used ≤ 65535 }
    ensures { reply_yes result ≡ compared words.now used id others.now other_used other_id }
{
    if found(words, used, id) && found(others, other_used, other_id) {
        return Ok(walks_equal(words, id, others, other_id, 2 * used + 1));
    }
    Err(Refusal::Removed)
}

// On any memories: FRAME, SCRATCH, INVALID of the first, then of the second. One scratch serves both.
pub fn subtree_eq(
    words: &[u32],
    h: Header,
    id: u32,
    others: &[u32],
    other_h: Header,
    other_id: u32,
    scratch: &mut [u32],
) -> Result<bool, Refusal>
    ensures { (scratch.new, reply_yes result) ≡ subtrees_compared words.now h id others.now other_h other_id scratch.old }
{
    guard(words, h, scratch)?;
    guard(others, other_h, scratch)?;
    compare_nodes(words, h.used, id, others, other_h.used, other_id)
}
