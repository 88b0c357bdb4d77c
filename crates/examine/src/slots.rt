// The first pass: each live slot's words are read once, and each neighbour is visited once.
// All functions ask only that the slots in use lie within the memory.
ghost use Rattle.std.specs.Prelude.{◌≡◌, ◌+◌, ◌*◌, ◌<◌, ◌≤◌, length};
ghost use Rattle.link.specs.Words.{width};
ghost use Rattle.link.specs.Found.{found_b};
ghost use Rattle.examine.specs.Slots.{has_b, children_ok, next_ok, previous_ok, prior_slot, prior_of, kin_of, look, look_run};

use link::choice::choose;
use link::id::{id_of, slot_of, stamp_of};
use link::words::{Slot, get_word};

// `words` and `used` stay two parameters, with the same fact in each contract: a struct of the two would have every caller build it, prove
// that fact there, and take it apart again for the definitions, which name the two.

// Whether an identifier is found.
#[tactic(auto, using(crate::specs::TestLaws::found_tests), unfolding(link::specs::Found::found_b))]
pub fn found_within(words: &[u32], used: u32, id: u32) -> bool
    requires { used * width ≤ length words.now }
    ensures { result ≡ found_b words.now used id }
{
    let slot = slot_of(id);
    let low = stamp_of(id);
    0 < slot && slot <= used && low <= 32767 && get_word(words, slot, Slot::STAMP) == low
}

// Whether y is found, its word j is a and its word k is b.
// Six numbers and the words: a struct of a word and its value would be built at each of the five calls, and read no plainer there.
#[tactic(auto, using(std::proofs::lemmas::Bool::Decides::nat_tests, link::specs::FoundLaws::found_is), unfolding(crate::specs::Slots::has_b))]
pub fn has(words: &[u32], used: u32, y: u32, j: u32, a: u32, k: u32, b: u32) -> bool
    requires { (used * width ≤ length words.now) × (j < width) × (k < width) }
    ensures { result ≡ has_b words.now used y j a k b }
{
    let slot = slot_of(y);
    found_within(words, used, y) && get_word(words, slot, j) == a && get_word(words, slot, k) == b
}

// First and last child: none, or the two ends of a chain under x.
#[tactic(auto, using(std::proofs::lemmas::Bool::Decides::nat_tests), unfolding(crate::specs::Slots::children_ok))]
pub fn children_ok(words: &[u32], used: u32, x: u32, first: u32, last: u32) -> bool
    requires { used * width ≤ length words.now }
    ensures { result ≡ children_ok words.now used x first last }
{
    if first == 0 {
        return last == 0;
    }
    has(words, used, first, Slot::PARENT, x, Slot::PREVIOUS, 0)
        && has(words, used, last, Slot::PARENT, x, Slot::NEXT, 0)
}

// Next: none, or a sibling that knows x as its previous.
#[tactic(auto, using(std::proofs::lemmas::Bool::Decides::nat_tests), unfolding(crate::specs::Slots::next_ok))]
pub fn next_ok(words: &[u32], used: u32, x: u32, parent: u32, next: u32) -> bool
    requires { used * width ≤ length words.now }
    ensures { result ≡ next_ok words.now used x parent next }
{
    next == 0 || has(words, used, next, Slot::PREVIOUS, x, Slot::PARENT, parent)
}

// Previous and parent. Without a parent: nothing before x, or a sibling that knows x as its next. Else the one that leads to x, which is
// the sibling before it or the parent, knows it by that link, and the parent is found.
#[tactic(auto, using(crate::specs::PreviousLaws::previous_tests))]
pub fn previous_ok(words: &[u32], used: u32, x: u32, parent: u32, previous: u32) -> bool
    requires { used * width ≤ length words.now }
    ensures { result ≡ previous_ok words.now used x parent previous }
{
    if parent == 0 {
        return previous == 0 || has(words, used, previous, Slot::NEXT, x, Slot::NEXT, x);
    }
    let lead = choose(previous == 0, parent, previous);
    let k = choose(previous == 0, Slot::FIRST, Slot::NEXT);
    has(words, used, lead, k, x, k, x) && found_within(words, used, parent)
}

// The slot of the node that leads to this one: its previous sibling, else its parent.
#[tactic(auto, using(std::proofs::lemmas::Bool::Decides::nat_tests), unfolding(crate::specs::Slots::prior_slot))]
pub fn prior_slot(parent: u32, previous: u32) -> u32
    ensures { result ≡ prior_slot parent previous }
{
    slot_of(choose(previous == 0, parent, previous))
}

// A live slot with all its neighbours: the slot that leads to it, or `None` where it fails.
#[tactic(auto, using(std::proofs::lemmas::Bool::Decides::nat_tests), unfolding(crate::specs::Slots::prior_of, crate::specs::Slots::prior_slot, crate::specs::Slots::kin_of, crate::specs::Slots::kin_ok))]
pub fn kin(words: &[u32], used: u32, s: u32, x: u32) -> Option<u32>
    requires { (0 < s) × (s ≤ used) × (used * width ≤ length words.now) }
    ensures { result ≡ prior_of (kin_of words.now used s x) }
{
    let parent = get_word(words, s, Slot::PARENT);
    let previous = get_word(words, s, Slot::PREVIOUS);
    let next = get_word(words, s, Slot::NEXT);
    let first = get_word(words, s, Slot::FIRST);
    let last = get_word(words, s, Slot::LAST);
    let passes = previous_ok(words, used, x, parent, previous)
        && next_ok(words, used, x, parent, next)
        && children_ok(words, used, x, first, last);
    passes.then_some(prior_slot(parent, previous))
}

// The slot that leads to slot s, 0 where it is removed or nothing does, `None` where it fails.
#[tactic(auto, using(std::proofs::lemmas::Bool::Decides::nat_tests), unfolding(crate::specs::Slots::prior_of, crate::specs::Slots::look))]
pub fn look_at(words: &[u32], used: u32, s: u32) -> Option<u32>
    requires { (0 < s) × (s ≤ used) × (used ≤ 65535) × (used * width ≤ length words.now) }
    ensures { result ≡ prior_of (look words.now used s) }
{
    let word = get_word(words, s, Slot::STAMP);
    if 32767 < stamp_of(word) {
        return Some(0);
    }
    if 65535 < word {
        return None;
    }
    kin(words, used, s, id_of(s, word))
}

// Every slot in use; what leads to slot s is written to place s of the scratch.
#[tactic(auto, using(crate::specs::SlotLaws::look_turns), unfolding(crate::specs::Slots::prior_of))]
pub fn look_at_all(words: &[u32], used: u32, scratch: &mut [u32]) -> bool
    requires { (used ≤ 65535) × (used * width ≤ length words.now) × (2 * used ≤ length scratch.old) }
    ensures { (scratch.new, result) ≡ look_run used words.now used 1 scratch.old }
{
    for s in 1..=used {
        let Some(prior) = look_at(words, used, s) else {
            return false;
        };
        scratch[s as usize] = prior;
    }
    true
}
