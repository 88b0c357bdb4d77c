// The examination: three passes, each only where the one before found nothing wrong; the scratch words end zero.
ghost use Rattle.std.specs.Prelude.{◌≡◌, ◌*◌, ◌≤◌, length};
ghost use Rattle.link.specs.Words.{width};
ghost use Rattle.examine.specs.Scratch.{zeroed};
ghost use Rattle.examine.specs.Examination.{links_run, examined};

use crate::chain::{Verdict, free_chain};
use crate::marks::{climb_all, mark_none};
use crate::slots::look_at_all;
use link::header::Header;

// Sets the first n words to zero. A function of one line for its contract, which names what is left `zeroed`.
#[tactic(auto, unfolding(crate::specs::Scratch::zeroed))]
pub fn zero_fill(scratch: &mut [u32], n: usize)
    requires { n ≤ length scratch.old }
    ensures { scratch.new ≡ zeroed n scratch.old }
{
    scratch[..n].fill(0);
}

// The passes over links; where no slot is in use they write nothing.
#[tactic(auto, using(crate::specs::PassLaws::link_passes), unfolding(crate::specs::Examination::links_run))]
pub fn links_ok(words: &[u32], used: u32, scratch: &mut [u32]) -> bool
    requires { (used ≤ 65535) × (used * width ≤ length words.now) × (2 * used ≤ length scratch.old) }
    ensures { (scratch.new, result) ≡ links_run words.now used scratch.old }
{
    if used == 0 {
        return true;
    }
    mark_none(scratch);
    look_at_all(words, used, scratch) && climb_all(scratch, used)
}

pub fn examine(words: &[u32], h: Header, scratch: &mut [u32]) -> Verdict
    requires { (h.used ≤ 65535) × (h.used * width ≤ length words.now) × (2 * h.used ≤ length scratch.old) }
    ensures { (scratch.new ≡ zeroed (2 * h.used) scratch.old) × (result ≡ examined words.now h) }
{
    let used = h.used;
    let sound = links_ok(words, used, scratch);
    zero_fill(scratch, 2 * (used as usize));
    if sound {
        free_chain(words, used, h.first, h.last)
    } else {
        Verdict::Unsound
    }
}
