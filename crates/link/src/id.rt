// Stamps and identifiers, and when an identifier is found. An identifier is slot × 65,536 + stamp; 0 is none, as words and C hold it.
// A stamp steps by `i16` negation; −32,768 is never negated.
ghost use Rattle.std.specs.Prelude.{◌≡◌, ◌<◌, pos};
ghost use Rattle.link.specs.Stamps.{Live, Reusable, removed_stamp, reused_stamp, is_removed, is_spent, bits_of, stamp_of_bits};
ghost use Rattle.link.specs.Ids.{id_of, slot_of, stamp_of};
ghost use Rattle.link.specs.Found.{found_b};

use crate::words::{Slot, link_of};

// The stamp of a slot: how often it was handed out and taken back. Negative means removed.
#[derive(Clone, Copy, Debug, PartialEq, Eq)]
pub struct Stamp(pub i16);

impl Stamp {
    // The last stamp that a slot is handed out with.
    pub const LAST: i16 = i16::MAX;

    // What removing the last stamp leaves: such a slot is spent.
    pub const SPENT: i16 = i16::MIN;

    // The stamp of a slot that was never used.
    pub fn fresh() -> Stamp
        ensures { result.0 ≡ pos 0 }
    {
        Stamp(0)
    }

    pub fn removed(self) -> Stamp
        requires { Live self.0 }
        ensures { result.0 ≡ removed_stamp self.0 }
    {
        let s = self.0;
        Stamp(-s - 1)
    }

    pub fn reuse(self) -> Stamp
        requires { Reusable self.0 }
        ensures { result.0 ≡ reused_stamp self.0 }
    {
        Stamp(-self.0)
    }

    pub fn is_removed(self) -> bool
        ensures { result ≡ is_removed self.0 }
    {
        self.0 < 0
    }

    pub fn is_spent(self) -> bool
        ensures { result ≡ is_spent self.0 }
    {
        self.0 == Stamp::SPENT
    }

    // The 16 bits of word 0 that hold it. A function and no `From`, as its inverse: `of_bits` asks for less than 65,536.
    pub fn bits(self) -> u32
        ensures { result ≡ bits_of self.0 }
    {
        self.0.cast_unsigned() as u32
    }

    pub fn of_bits(bits: u32) -> Stamp
        requires { bits < 65536 }
        ensures { result.0 ≡ stamp_of_bits bits }
    {
        Stamp((bits as u16).cast_signed())
    }
}

pub fn id_of(slot: u32, stamp: u32) -> u32
    requires { (slot < 65536) × (stamp < 65536) }
    ensures { result ≡ id_of slot stamp }
{
    slot * 65536 + stamp
}

pub fn slot_of(id: u32) -> u32
    ensures { result ≡ slot_of id }
{
    id / 65536
}

pub fn stamp_of(id: u32) -> u32
    ensures { result ≡ stamp_of id }
{
    id % 65536
}

// Whether an identifier names a node: a slot in use, of kind 0, with that very stamp.
#[tactic(auto, unfolding(crate::specs::Found::found_b))]
pub fn found(words: &[u32], used: u32, id: u32) -> bool
    ensures { result ≡ found_b words.now used id }
{
    let slot = slot_of(id);
    let low = stamp_of(id);
    slot != 0 && low <= 32767 && slot <= used && link_of(words, id, Slot::STAMP) == low
}
