// The batch.
ghost use Rattle.std.specs.Prelude.{◌≡◌};
ghost use Rattle.rules.specs.Answers.{answer};
ghost use Rattle.batch.specs.Batch.{batched};
ghost use Rattle.lift_c.specs.Face.{header_of};

use crate::packing::{header_of, put_answer};
use batch::batch::batch;

pub fn lift_batch(
    words: &mut [u32],
    header: &mut [u32; 3],
    scratch: &mut [u32],
    trace: &[u8],
    answers: &mut [u32],
    res: &mut u32,
) -> u32
    ensures { (words.new, scratch.new, answers.new, answer (header_of header.new) result res.new) ≡ batched words.old (header_of header.old) scratch.old trace.now answers.old }
{
    let h = header_of(header);
    let said = batch(words, h, scratch, trace, answers);
    put_answer(header, res, h, said)
}
