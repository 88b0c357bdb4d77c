// Spent slots are taken off the free chain; the others keep their order. On any memory, at most as many steps as there are slots in use.
ghost use Rattle.std.specs.Prelude.{◌≡◌, ◌*◌, ◌<◌, ◌≤◌, eqb, length};
ghost use Rattle.link.specs.Ids.{stamp_of};
ghost use Rattle.link.specs.Words.{width};
ghost use Rattle.image.specs.Unlink.{bypassed, unlinked};

use link::header::Header;
use link::id::Stamp;
use link::words::{Slot, get_word, set_word};

// Whether word 0 holds the stamp of a spent slot.
pub fn is_spent(word: u32) -> bool
    ensures { result ≡ eqb (stamp_of word) 32768 }
{
    Stamp::of_bits(word % 65536).is_spent()
}

// Takes a slot off the chain: the slot before it, or the chain's first, which is answered, leads past it.
// Where there is no slot before it, `previous` is 0 and not an `Option`: document 01 writes none as 0 into the words.
#[tactic(auto, unfolding(crate::specs::Unlink::bypassed))]
pub fn bypass(words: &mut [u32], first: u32, previous: u32, slot: u32, next: u32) -> u32
    requires { (0 < slot) × (slot * width ≤ length words.old) × (previous * width ≤ length words.old) }
    ensures { (words.new, result) ≡ bypassed words.old first previous slot next }
{
    if previous == 0 {
        set_word(words, slot, Slot::NUMBER, 0);
        return next;
    }
    set_word(words, previous, Slot::NUMBER, next);
    set_word(words, slot, Slot::NUMBER, 0);
    first
}

pub fn unlink_exhausted_free_slots(words: &mut [u32], h: Header) -> Header
    requires { (h.used ≤ 65535) × (h.used * width ≤ length words.old) }
    ensures { (words.new, result) ≡ unlinked words.old h }
{
    let used = h.used;
    let mut first = h.first;
    let mut previous: u32 = 0;
    let mut slot = first;
    for _ in 0..=used {
        if slot == 0 || used < slot {
            break;
        }
        let next = get_word(words, slot, Slot::NUMBER);
        if is_spent(get_word(words, slot, Slot::STAMP)) {
            first = bypass(words, first, previous, slot, next);
        } else {
            previous = slot;
        }
        slot = next;
    }
    Header {
        used,
        first,
        last: previous,
    }
}
