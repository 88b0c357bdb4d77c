// The stepped walk: a budget of edges at a time, over any memory. It needs neither scratch nor ready memory.
ghost use Rattle.std.specs.Prelude.{◌≡◌, ◌*◌, ◌≤◌, length};
ghost use Rattle.link.specs.Words.{width};
ghost use Rattle.walk.specs.Walks.{started_by, started, yielded_by, yielded_to, yielded, walked_by, walked};

use crate::edge::{Edge, Step};
use crate::run::write_from;
use link::header::Header;
use link::id::found;
use link::words::capacity;
use rules::answer::Refusal;

// Where a walk stands: its root, and the next edge while there is one.
#[derive(Clone, Copy, Debug, PartialEq, Eq)]
pub struct Traverse {
    pub root: u32,
    pub next: Step,
}

// What a walk hands back: how many edges it yielded, and where it stands.
#[derive(Clone, Copy, Debug, PartialEq, Eq)]
pub struct Yielded {
    pub count: u32,
    pub walk: Traverse,
}

#[tactic(auto, unfolding(crate::specs::Walks::started, rules::specs::Answers::refusal))]
pub fn walk_start(words: &[u32], h: Header, root: u32) -> Result<Traverse, Refusal>
    ensures { started_by root result ≡ started words.now h root }
{
    if capacity(words) < h.used {
        return Err(Refusal::Frame);
    }
    if !found(words, h.used, root) {
        return Err(Refusal::Removed);
    }
    Ok(Traverse {
        root,
        next: Step::Edge(Edge::Start(root)),
    })
}

// A walk that yielded so many edges and stands before `next`.
fn yielded_to(root: u32, count: u32, next: Step) -> Yielded
    ensures { yielded_by result ≡ yielded_to root count next }
{
    Yielded {
        count,
        walk: Traverse { root, next },
    }
}

// At most `budget` edges, written to the list and counted. The budget is that of C, and may be less than the list; root and next edge come
// apart, as the definition `yielded` takes them.
pub fn walk_edges(
    words: &[u32],
    used: u32,
    root: u32,
    start: Step,
    budget: u32,
    list: &mut [u32],
) -> Yielded
    requires { (used ≤ 65535) × (used * width ≤ length words.now) × (budget ≤ length list.old) }
    ensures { (list.new, yielded_by result) ≡ yielded words.now used root start budget list.old }
{
    if budget == 0 {
        return yielded_to(root, 0, start);
    }
    let Step::Edge(e) = start else {
        return yielded_to(root, 0, start);
    };
    let reached = write_from(words, used, root, e, budget, list);
    yielded_to(root, reached.count, reached.next)
}

#[tactic(auto, unfolding(crate::specs::Walks::walked, crate::specs::Walks::walk_no, rules::specs::Answers::refusal))]
pub fn walk(
    words: &[u32],
    h: Header,
    from: Traverse,
    budget: u32,
    list: &mut [u32],
) -> Result<Yielded, Refusal>
    ensures { (list.new, walked_by from result) ≡ walked words.now h from budget list.old }
{
    if capacity(words) < h.used {
        return Err(Refusal::Frame);
    }
    if list.len() < (budget as usize) {
        return Err(Refusal::Room);
    }
    Ok(walk_edges(words, h.used, from.root, from.next, budget, list))
}
