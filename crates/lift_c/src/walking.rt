// The stepped walk, its state behind a pointer: root, next edge, mark. A refused call leaves the state.
ghost use Rattle.std.specs.Prelude.{◌≡◌};
ghost use Rattle.rules.specs.Answers.{reply};
ghost use Rattle.lift_c.specs.Face.{header_of};
ghost use Rattle.lift_c.specs.State.{walk_of, state_of, start_call, walk_call};

use crate::packing::header_of;
use rules::answer::DONE;
use walk::code::{edge_word, mark_of, step_of};
use walk::walk::{Traverse, walk, walk_start};

fn walk_of(state: &[u32; 3]) -> Traverse
    ensures { result ≡ walk_of state.now }
{
    let [root, edge, mark] = *state;
    Traverse {
        root,
        next: step_of(edge, mark),
    }
}

// Where a walk stands then. The calls go by cases and not by `put_reply`: a refused one leaves the state.
fn put_walk(words: &[u32], used: u32, stands: Traverse, state: &mut [u32; 3])
    ensures { state.new ≡ state_of words.now used stands }
{
    let edge = edge_word(words, used, stands.next);
    let mark = mark_of(stands.next);
    *state = [stands.root, edge, mark];
}

pub fn lift_walk_start(words: &[u32], header: &[u32; 3], root: u32, state: &mut [u32; 3]) -> u32
    ensures { (state.new, result) ≡ start_call words.now (header_of header.now) root state.old }
{
    let h = header_of(header);
    match walk_start(words, h, root) {
        Ok(stands) => {
            put_walk(words, h.used, stands, state);
            DONE
        }
        Err(refusal) => u32::from(refusal),
    }
}

pub fn lift_walk(
    words: &[u32],
    header: &[u32; 3],
    state: &mut [u32; 3],
    budget: u32,
    list: &mut [u32],
    res: &mut u32,
) -> u32
    ensures { (list.new, state.new, reply result res.new) ≡ walk_call words.now (header_of header.now) state.old budget list.old }
{
    let h = header_of(header);
    match walk(words, h, walk_of(state), budget, list) {
        Ok(yielded) => {
            put_walk(words, h.used, yielded.walk, state);
            *res = yielded.count;
            DONE
        }
        Err(refusal) => {
            *res = 0;
            u32::from(refusal)
        }
    }
}
