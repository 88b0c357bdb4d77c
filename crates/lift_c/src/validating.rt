// The validator.
ghost use Rattle.std.specs.Prelude.{◌≡◌};
ghost use Rattle.rules.specs.Answers.{reply};
ghost use Rattle.sound.specs.Guard.{validated};
ghost use Rattle.lift_c.specs.Face.{header_of};

use crate::packing::{header_of, put_reply};
use sound::validate;

// Answers the number; `result` is 1 for sound memory, else 0.
pub fn lift_validate(words: &[u32], header: &[u32; 3], scratch: &mut [u32], res: &mut u32) -> u32
    ensures { (scratch.new, reply result res.new) ≡ validated words.now (header_of header.now) scratch.old }
{
    let h = header_of(header);
    put_reply(res, validate(words, h, scratch))
}
