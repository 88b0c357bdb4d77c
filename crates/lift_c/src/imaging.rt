// Save and load.
ghost use Rattle.std.specs.Prelude.{◌≡◌};
ghost use Rattle.rules.specs.Answers.{reply, answer};
ghost use Rattle.image.specs.Save.{saved};
ghost use Rattle.image.specs.Load.{loaded};
ghost use Rattle.lift_c.specs.Face.{header_of};

use crate::packing::{header_of, put_header, put_reply};
use image::load::{answered, load};
use image::save::save;

pub fn lift_save(
    words: &[u32],
    header: &[u32; 3],
    scratch: &mut [u32],
    bytes: &mut [u8],
    res: &mut u32,
) -> u32
    ensures { (scratch.new, bytes.new, reply result res.new) ≡ saved words.now (header_of header.now) scratch.old bytes.old }
{
    let h = header_of(header);
    put_reply(res, save(words, h, scratch, bytes))
}

// The header is written by every load; by a refused one, with zeros. Not by `put_answer`: no header comes with a load.
pub fn lift_load(
    bytes: &[u8],
    words: &mut [u32],
    header: &mut [u32; 3],
    scratch: &mut [u32],
    res: &mut u32,
) -> u32
    ensures { (words.new, scratch.new, answer (header_of header.new) result res.new) ≡ loaded bytes.now words.old scratch.old }
{
    let answer = answered(load(bytes, words, scratch));
    put_header(header, answer.header);
    *res = answer.result;
    answer.number
}
