// Runs of edges: starts with the ends of leaves among them, ends up to the next sibling, and rounds of both.
// A turn of `starts` writes one edge or two, and one of `rounds` a whole run: their loops count what is written, which no `for` could step.
ghost use Rattle.std.specs.Prelude.{◌≡◌, ◌+◌, ◌-◌, ◌*◌, ◌<◌, ◌≤◌, length};
ghost use Rattle.link.specs.Ids.{slot_of};
ghost use Rattle.link.specs.Words.{width, link};
ghost use Rattle.link.specs.Found.{found_b};
ghost use Rattle.walk.specs.Edges.{next_of_next};
ghost use Rattle.walk.specs.Runs.{yield_from, starting, ending, Ended, Ran};
ghost use Rattle.walk.specs.declared.edge.Edge.TheVariants.{Start, End};
ghost use Rattle.walk.specs.declared.edge.Step.TheVariants as S;

use crate::edge::{Edge, Step};
use link::id::{slot_of, stamp_of};
use link::words::Slot;

// How many edges are written then, and what is next.
#[derive(Clone, Copy, Debug, PartialEq, Eq)]
pub struct Reached {
    pub count: u32,
    pub next: Step,
}

// Where the words of a slot end: counted once for the test and the links, where `found` and `link_of` count anew.
// What that gains is not measured.
fn end_of(slot: u32) -> usize
    ensures { result ≡ slot * width }
{
    (slot as usize) * Slot::WORDS
}

// Whether an identifier is found whose slot ends there; `last` is where the slots in use end.
fn found_to(words: &[u32], used: u32, last: usize, id: u32, end: usize) -> bool
    requires { (last ≡ used * width) × (last ≤ length words.now) × (end ≡ slot_of id * width) }
    ensures { result ≡ found_b words.now used id }
{
    let low = stamp_of(id);
    end != 0 && end <= last && low <= 32767 && words[end - Slot::WORDS] == low
}

// Link k of an identifier whose slot ends there.
fn link_to(words: &[u32], id: u32, end: usize, k: u32) -> u32
    requires { (0 < end) × (end ≤ length words.now) × (end ≡ slot_of id * width) × (k < width) }
    ensures { result ≡ link words.now id k }
{
    words[end - Slot::WORDS + (k as usize)]
}

// What follows End of a node: nothing where it is the root.
#[tactic(auto, unfolding(crate::specs::Edges::next_of_next, crate::specs::Edges::next_traverse))]
fn after_end(words: &[u32], root: u32, id: u32, end: usize) -> Step
    requires { (0 < end) × (end ≤ length words.now) × (end ≡ slot_of id * width) }
    ensures { result ≡ next_of_next words.now root (End id) }
{
    if id == root {
        return Step::Over;
    }
    let sibling = link_to(words, id, end, Slot::NEXT);
    if sibling != 0 {
        return Step::Edge(Edge::Start(sibling));
    }
    let parent = link_to(words, id, end, Slot::PARENT);
    if parent != 0 {
        return Step::Edge(Edge::End(parent));
    }
    Step::Over
}

// End of a node, and what is next then.
fn write_end(
    words: &[u32],
    root: u32,
    id: u32,
    end: usize,
    list: &mut [u32],
    written: u32,
) -> Reached
    requires { (0 < end) × (end ≤ length words.now) × (end ≡ slot_of id * width) × (id + 32768 < 4294967296) × (written < length list.old) × (written < 4294967295) }
    ensures { Ended words.now root id list.old written result.next list.new result.count }
{
    list[written as usize] = Edge::End(id).code();
    Reached {
        count: written + 1,
        next: after_end(words, root, id, end),
    }
}

// What a run reads and how far it goes: the node words, how many slots are in use, the root, and how many edges are wanted.
// The list is lent to be written, so it can be in no struct that is copied: it comes beside this one, with how much of it is written.
#[derive(Clone, Copy)]
struct Run<'a> {
    words: &'a [u32],
    used: u32,
    root: u32,
    budget: u32,
    ghost within: { (used ≤ 65535) × (used * width ≤ length words.now) },
}

impl<'a> Run<'a> {
    // From Start of a node, over first children and behind leaves over next siblings, to a leaf without one, as far as the budget goes.
    fn starts(self, first: u32, list: &mut [u32], written: u32) -> Reached
        requires { (written < self.budget) × (self.budget ≤ length list.old) }
        ensures { Ran self.entry.words.now self.entry.used self.entry.root self.entry.budget (S.Edge (Start first)) list.old written starting result.next list.new result.count }
    {
        let last = end_of(self.used);
        let mut id = first;
        let mut count = written;
        while count < self.budget {
            let end = end_of(slot_of(id));
            if !found_to(self.words, self.used, last, id, end) {
                return Reached {
                    count,
                    next: Step::Broken,
                };
            }
            list[count as usize] = id;
            count += 1;
            let child = link_to(self.words, id, end, Slot::FIRST);
            if child != 0 {
                id = child;
            } else {
                if count == self.budget {
                    return Reached {
                        count,
                        next: Step::Edge(Edge::End(id)),
                    };
                }
                let leaf = write_end(self.words, self.root, id, end, list, count);
                let Step::Edge(Edge::Start(sibling)) = leaf.next else {
                    return leaf;
                };
                count = leaf.count;
                id = sibling;
            }
        }
        Reached {
            count,
            next: Step::Edge(Edge::Start(id)),
        }
    }

    // From End of a node up to the first with a next sibling, as far as the budget goes.
    fn ends(self, first: u32, list: &mut [u32], written: u32) -> Reached
        requires { (written < self.budget) × (self.budget ≤ length list.old) }
        ensures { Ran self.entry.words.now self.entry.used self.entry.root self.entry.budget (S.Edge (End first)) list.old written ending result.next list.new result.count }
    {
        let last = end_of(self.used);
        let mut id = first;
        for count in written..self.budget {
            let end = end_of(slot_of(id));
            if !found_to(self.words, self.used, last, id, end) {
                return Reached {
                    count,
                    next: Step::Broken,
                };
            }
            let up = write_end(self.words, self.root, id, end, list, count);
            let Step::Edge(Edge::End(parent)) = up.next else {
                return up;
            };
            id = parent;
        }
        Reached {
            count: self.budget,
            next: Step::Edge(Edge::End(id)),
        }
    }

    // From Start of a node down, and up from there.
    fn round(self, first: u32, list: &mut [u32], written: u32) -> Reached
        requires { (written < self.budget) × (self.budget ≤ length list.old) }
        ensures { Ran self.entry.words.now self.entry.used self.entry.root self.entry.budget (S.Edge (Start first)) list.old written ending result.next list.new result.count }
    {
        let down = self.starts(first, list, written);
        let Step::Edge(Edge::End(leaf)) = down.next else {
            return down;
        };
        if down.count < self.budget {
            return self.ends(leaf, list, down.count);
        }
        down
    }

    // From Start of a node, down and up and down again, until the budget is used or nothing is left.
    fn rounds(self, first: u32, list: &mut [u32], written: u32) -> Reached
        requires { (written ≤ self.budget) × (self.budget ≤ length list.old) }
        ensures { (list.new, result.count, result.next) ≡ yield_from (self.entry.budget - written) self.entry.words.now self.entry.used self.entry.root (S.Edge (Start first)) list.old written }
    {
        let mut id = first;
        let mut count = written;
        while count < self.budget {
            let round = self.round(id, list, count);
            let Step::Edge(Edge::Start(sibling)) = round.next else {
                return round;
            };
            count = round.count;
            id = sibling;
        }
        Reached {
            count,
            next: Step::Edge(Edge::Start(id)),
        }
    }

    // From End of a node, up and then in rounds.
    fn upwards(self, first: u32, list: &mut [u32]) -> Reached
        requires { (0 < self.budget) × (self.budget ≤ length list.old) }
        ensures { (list.new, result.count, result.next) ≡ yield_from self.entry.budget self.entry.words.now self.entry.used self.entry.root (S.Edge (End first)) list.old 0 }
    {
        let up = self.ends(first, list, 0);
        let Step::Edge(Edge::Start(sibling)) = up.next else {
            return up;
        };
        self.rounds(sibling, list, up.count)
    }
}

// From either.
#[tactic(auto, using(crate::specs::RunLaws::from_first))]
pub fn write_from(
    words: &[u32],
    used: u32,
    root: u32,
    e: Edge,
    budget: u32,
    list: &mut [u32],
) -> Reached
    requires { (used ≤ 65535) × (used * width ≤ length words.now) × (0 < budget) × (budget ≤ length list.old) }
    ensures { (list.new, result.count, result.next) ≡ yield_from budget words.now used root (S.Edge e) list.old 0 }
{
    let run = Run {
        words,
        used,
        root,
        budget,
    };
    match e {
        Edge::Start(id) => run.rounds(id, list, 0),
        Edge::End(id) => run.upwards(id, list),
    }
}
