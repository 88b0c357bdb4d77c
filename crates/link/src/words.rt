// The words of a slot, read and written over a lent run of words: by slot and word number, and by identifier and link.
// The forms over an identifier are total: a slot of 0, or one past the memory, reads as 0 and is not written.
ghost use Rattle.std.specs.Prelude.{◌≡◌, ◌*◌, ◌<◌, ◌≤◌, length};
ghost use Rattle.link.specs.Words.{width, capacity_of, word, set_word, link, set_link};

// A numbered run of words. Slot 0 is none. Word numbers are numbers and no enum: they are offsets, and `link_of` takes any.
#[derive(Clone, Copy, Debug, PartialEq, Eq)]
pub struct Slot;

impl Slot {
    // Words to a slot.
    pub const WORDS: usize = 7;

    // The greatest slot number.
    pub const MOST: u32 = 65535;

    // Word 0: kind and stamp. Word 1: the number stored, or the next free slot. Words 2 to 6: the links.
    pub const STAMP: u32 = 0;

    pub const NUMBER: u32 = 1;

    pub const PARENT: u32 = 2;

    pub const PREVIOUS: u32 = 3;

    pub const NEXT: u32 = 4;

    pub const FIRST: u32 = 5;

    pub const LAST: u32 = 6;
}

// The smaller of the whole slots lent and the greatest slot number.
#[tactic(auto, unfolding(crate::specs::Words::capacity_of))]
pub fn capacity(words: &[u32]) -> u32
    ensures { result ≡ capacity_of (length words.now) }
{
    (words.len() / Slot::WORDS).min(Slot::MOST as usize) as u32
}

// Where a word lies is one line in each of these four functions: a function for it would have a contract that says no more.

// Word k of a slot that lies within the memory.
#[tactic(auto, unfolding(crate::specs::Words::word))]
pub fn get_word(words: &[u32], slot: u32, k: u32) -> u32
    requires { (0 < slot) × (slot * width ≤ length words.now) × (k < width) }
    ensures { result ≡ word words.now slot k }
{
    let i = (slot as usize - 1) * Slot::WORDS + (k as usize);
    words[i]
}

// Sets word k of a slot that lies within the memory.
#[tactic(auto, unfolding(crate::specs::Words::set_word))]
pub fn set_word(words: &mut [u32], slot: u32, k: u32, v: u32)
    requires { (0 < slot) × (slot * width ≤ length words.old) × (k < width) }
    ensures { words.new ≡ set_word words.old slot k v }
{
    let i = (slot as usize - 1) * Slot::WORDS + (k as usize);
    words[i] = v;
}

// Word k of the slot that an identifier names.
#[tactic(auto, unfolding(crate::specs::Words::link, crate::specs::Words::word))]
pub fn link_of(words: &[u32], id: u32, k: u32) -> u32
    ensures { result ≡ link words.now id k }
{
    let slot = (id / 65536) as usize;
    if slot == 0 {
        return 0;
    }
    let i = (slot - 1) * Slot::WORDS + (k as usize);
    words.get(i).copied().unwrap_or(0)
}

// Sets word k of the slot that an identifier names.
#[tactic(auto, unfolding(crate::specs::Words::set_link, crate::specs::Words::set_word))]
pub fn set_link(words: &mut [u32], id: u32, k: u32, v: u32)
    ensures { words.new ≡ set_link words.old id k v }
{
    let slot = (id / 65536) as usize;
    if slot == 0 {
        return;
    }
    let at = (slot - 1) * Slot::WORDS + (k as usize);
    // Not by `get_mut`: a proof knows no element of a slice after its borrow.
    if at < words.len() {
        words[at] = v;
    }
}
