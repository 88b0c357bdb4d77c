// The live count and the census.
ghost use Rattle.std.specs.Prelude.{◌≡◌};
ghost use Rattle.rules.specs.Answers.{reply};
ghost use Rattle.arena.specs.Census.{counted, census_call, live_call};
ghost use Rattle.lift_c.specs.Face.{header_of, census_of};

use crate::packing::{header_of, put_reply};
use arena::arena::{census, live_count};
use rules::answer::DONE;

pub fn lift_live_count(words: &[u32], header: &[u32; 3], scratch: &mut [u32], res: &mut u32) -> u32
    ensures { (scratch.new, reply result res.new) ≡ live_call words.now (header_of header.now) scratch.old }
{
    let h = header_of(header);
    put_reply(res, live_count(words, h, scratch))
}

// Live, free, spent, fresh. By cases and not by `put_reply`: four numbers are written in place of one.
pub fn lift_census(
    words: &[u32],
    header: &[u32; 3],
    scratch: &mut [u32],
    counts: &mut [u32; 4],
) -> u32
    ensures { (scratch.new, counted result (census_of counts.new)) ≡ census_call words.now (header_of header.now) scratch.old }
{
    let h = header_of(header);
    match census(words, h, scratch) {
        Ok(found) => {
            *counts = [found.live, found.free, found.spent, found.fresh];
            DONE
        }
        Err(refusal) => {
            *counts = [0; 4];
            u32::from(refusal)
        }
    }
}
