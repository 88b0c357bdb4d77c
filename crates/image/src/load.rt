// An image as memory.
ghost use Rattle.std.specs.Prelude.{◌≡◌, false, ◌*◌, ◌≤◌, length};
ghost use Rattle.link.specs.Words.{width};
ghost use Rattle.rules.specs.Answers.{number_in};
ghost use Rattle.image.specs.Load.{load_no_with, settled, loaded_of, loaded};

use crate::format::{AT_USED, AT_VERSION, AT_WORDS, VERSION, image_length, marked, read_header};
use crate::unlink::unlink_exhausted_free_slots;
use examine::chain::Verdict;
use examine::examine::examine;
use link::header::Header;
use link::words::{Slot, capacity};
use little_endian::number::get_16;
use little_endian::words::get_words;
use rules::answer::{Answer, Refusal};

// The tests before the words are read: LENGTH, MARK, VERSION, LENGTH, ROOM, SCRATCH.
#[tactic(auto, using(std::proofs::lemmas::Bool::Decides::nat_tests), unfolding(crate::specs::Load::load_no_with, crate::specs::Load::load_refusal))]
pub fn admit(bytes: &[u8], words: &[u32], scratch: &[u32]) -> Result<(), Refusal>
    ensures { number_in result ≡ load_no_with false bytes.now (length words.now) (length scratch.now) }
{
    if bytes.len() < AT_WORDS {
        return Err(Refusal::Length);
    }
    if !marked(bytes) {
        return Err(Refusal::Mark);
    }
    if get_16(bytes, AT_VERSION) != VERSION {
        return Err(Refusal::Version);
    }
    let used = get_16(bytes, AT_USED);
    if bytes.len() != image_length(used) {
        return Err(Refusal::Length);
    }
    if capacity(words) < used {
        return Err(Refusal::Room);
    }
    if scratch.len() < 2 * (used as usize) {
        return Err(Refusal::Scratch);
    }
    Ok(())
}

// What is made of the words of an image, by what the examination found.
#[tactic(auto, unfolding(examine::specs::Scratch::zeroed))]
pub fn settle(words: &mut [u32], h: Header, verdict: Verdict) -> Result<Header, Refusal>
    requires { (h.used ≤ 65535) × (h.used * width ≤ length words.old) }
    ensures { (words.new, loaded_of result) ≡ settled verdict words.old h }
{
    match verdict {
        Verdict::Unsound => {
            words[..Slot::WORDS * (h.used as usize)].fill(0);
            Err(Refusal::Invalid)
        }
        Verdict::Spent => Ok(unlink_exhausted_free_slots(words, h)),
        Verdict::Ready => Ok(h),
    }
}

pub fn load(bytes: &[u8], words: &mut [u32], scratch: &mut [u32]) -> Result<Header, Refusal>
    ensures { (words.new, scratch.new, loaded_of result) ≡ loaded bytes.now words.old scratch.old }
{
    admit(bytes, words, scratch)?;
    let h = read_header(bytes);
    get_words(bytes, AT_WORDS, words, Slot::WORDS * (h.used as usize));
    let verdict = examine(words, h, scratch);
    settle(words, h, verdict)
}

// The same in numbers. The header answered by any refused load is all zero.
pub fn answered(said: Result<Header, Refusal>) -> Answer
    ensures { result ≡ loaded_of said }
{
    Answer::of(Header::default(), said)
}
