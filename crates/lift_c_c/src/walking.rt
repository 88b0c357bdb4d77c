// The stepped walk, its state behind a pointer: root, next edge, mark. A refused call leaves the state.
ghost use Rattle.std.specs.Prelude.{◌≡◌};
ghost use Rattle.rules.specs.Answers.{reply};
ghost use Rattle.lift_c.specs.Face.{header_of};
ghost use Rattle.lift_c.specs.State.{start_call, walk_call};

use lift_c::walking;

#[unsafe(no_mangle)]
pub extern "C" fn lift_walk_start(
    words: &[u32],
    header: &[u32; 3],
    root: u32,
    state: &mut [u32; 3],
) -> u32
    ensures { (state.new, result) ≡ start_call words.now (header_of header.now) root state.old }
{
    walking::lift_walk_start(words, header, root, state)
}

#[unsafe(no_mangle)]
pub extern "C" fn lift_walk(
    words: &[u32],
    header: &[u32; 3],
    state: &mut [u32; 3],
    budget: u32,
    list: &mut [u32],
    res: &mut u32,
) -> u32
    ensures { (list.new, state.new, reply result res.new) ≡ walk_call words.now (header_of header.now) state.old budget list.old }
{
    walking::lift_walk(words, header, state, budget, list, res)
}
