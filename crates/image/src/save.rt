// Memory as an image.
ghost use Rattle.std.specs.Prelude.{◌≡◌, ◌*◌, ◌≤◌, length};
ghost use Rattle.link.specs.Words.{width};
ghost use Rattle.rules.specs.Answers.{reply_of};
ghost use Rattle.image.specs.Save.{written, saved};

use crate::format::{AT_WORDS, image_length, write_prefix};
use link::header::Header;
use link::words::Slot;
use little_endian::words::put_words;
use rules::answer::Refusal;
use sound::guard;

// The image of memory that is known to be ready.
pub fn write_image(words: &[u32], h: Header, bytes: &mut [u8]) -> Result<u32, Refusal>
    requires { (h.used ≤ 65535) × (h.used * width ≤ length words.now) }
    ensures { (bytes.new, reply_of result) ≡ written words.now h bytes.old }
{
    let length = image_length(h.used);
    if bytes.len() < length {
        return Err(Refusal::Room);
    }
    write_prefix(bytes, h);
    put_words(bytes, AT_WORDS, words, Slot::WORDS * (h.used as usize));
    Ok(length as u32)
}

pub fn save(words: &[u32], h: Header, scratch: &mut [u32], bytes: &mut [u8]) -> Result<u32, Refusal>
    ensures { (scratch.new, bytes.new, reply_of result) ≡ saved words.now h scratch.old bytes.old }
{
    guard(words, h, scratch)?;
    write_image(words, h, bytes)
}
