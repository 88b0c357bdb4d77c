// The batch.
ghost use Rattle.std.specs.Prelude.{◌≡◌};
ghost use Rattle.rules.specs.Answers.{answer};
ghost use Rattle.batch.specs.Batch.{batched};
ghost use Rattle.lift_c.specs.Face.{header_of};

use lift_c::batching;

#[unsafe(no_mangle)]
pub extern "C" fn lift_batch(
    words: &mut [u32],
    header: &mut [u32; 3],
    scratch: &mut [u32],
    trace: &[u8],
    answers: &mut [u32],
    res: &mut u32,
) -> u32
    ensures { (words.new, scratch.new, answers.new, answer (header_of header.new) result res.new) ≡ batched words.old (header_of header.old) scratch.old trace.now answers.old }
{
    batching::lift_batch(words, header, scratch, trace, answers, res)
}
