// The validator, and the guard that every call that needs ready memory goes through. Neither asks anything of its caller.

#![tactic(auto)]

ghost use Rattle.std.specs.Prelude.{◌≡◌, ◌↔◌, ◌*◌, ◌≤◌, Ok, true, length};
ghost use Rattle.link.specs.Words.{capacity_of};
ghost use Rattle.rules.specs.Answers.{number_in, reply_yes};
ghost use Rattle.rules.specs.Sound.{Sound, Ready};
ghost use Rattle.sound.specs.Guard.{fit_no, ready_no, scratch_after, validated, guard_no};

// Words, header and scratch stay parameters of their own: C lends the words apart from the header, which goes back by value. A type that
// held them would hold a reference, and contracts over it would be assertions of the logic, as those of `Walker`.

use examine::chain::Verdict;
use examine::examine::examine;
use link::header::Header;
use link::words::capacity;
use rules::answer::Refusal;

// FRAME, then SCRATCH; else soundness can be examined.
pub fn fit(words: &[u32], used: u32, scratch: &[u32]) -> Result<(), Refusal>
    ensures { number_in result ≡ fit_no (length words.now) used (length scratch.now) }
{
    if capacity(words) < used {
        return Err(Refusal::Frame);
    }
    if scratch.len() < 2 * (used as usize) {
        return Err(Refusal::Scratch);
    }
    Ok(())
}

// INVALID, unless ready.
#[tactic(auto, unfolding(crate::specs::Guard::ready_no))]
pub fn ready(verdict: Verdict) -> Result<(), Refusal>
    ensures { number_in result ≡ ready_no verdict }
{
    match verdict {
        Verdict::Unsound | Verdict::Spent => Err(Refusal::Invalid),
        Verdict::Ready => Ok(()),
    }
}

// Whether memory is sound.
pub fn validate(words: &[u32], h: Header, scratch: &mut [u32]) -> Result<bool, Refusal>
    ensures outcome { (scratch.new, reply_yes result) ≡ validated words.now h scratch.old }
    ensures exact { (result ≡ Ok true) ↔ ((h.used ≤ capacity_of (length words.now)) × (2 * h.used ≤ length scratch.old) × Sound words.now h) }
{
    fit(words, h.used, scratch)?;
    Ok(examine(words, h, scratch).is_sound())
}

// The first test that refuses, of those that every call with ready memory makes.
pub fn guard(words: &[u32], h: Header, scratch: &mut [u32]) -> Result<(), Refusal>
    ensures outcome { (scratch.new ≡ scratch_after words.now h scratch.old) × (number_in result ≡ guard_no words.now h (length scratch.old)) }
    ensures exact { (result ≡ Ok tt) ↔ ((h.used ≤ capacity_of (length words.now)) × (2 * h.used ≤ length scratch.old) × Ready words.now h) }
{
    fit(words, h.used, scratch)?;
    ready(examine(words, h, scratch))
}
