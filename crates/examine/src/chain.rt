// The third pass: the free chain from its first slot to none, at most as many steps as there are slots in use.
// It tells whether a spent slot was met, so that one examination serves sound and ready.
ghost use Rattle.std.specs.Prelude.{◌≡◌, ◌+◌, ◌*◌, ◌≤◌, length, false};
ghost use Rattle.link.specs.Words.{width};
ghost use Rattle.examine.specs.Chain.{free_word, met_spent, at_end, chain_run};
ghost use Rattle.examine.specs.Verdicts.{sound_b, ready_b};

use link::words::{Slot, get_word};

// What an examination finds.
#[derive(Clone, Copy, Debug, PartialEq, Eq)]
pub enum Verdict {
    Unsound,
    Spent,
    Ready,
}

impl Verdict {
    // With spent slots on the free chain or without.
    pub fn is_sound(self) -> bool
        ensures { result ≡ sound_b self }
    {
        !matches!(self, Verdict::Unsound)
    }

    pub fn is_ready(self) -> bool
        ensures { result ≡ ready_b self }
    {
        matches!(self, Verdict::Ready)
    }
}

// Word 0 of a spent slot: kind 1 and the stamp −32,768. It is the least word of a free slot.
const SPENT_WORD: u32 = 98304;

// Past the greatest word 0 of a free slot: kind 2. Both are numbers, since a word of memory holds them.
const FREE_END: u32 = 131072;

// Whether word 0 is that of a free slot: kind 1 and a removed stamp.
#[tactic(auto, using(std::proofs::lemmas::Bool::Decides::nat_tests), unfolding(crate::specs::Chain::free_word))]
pub fn is_free(word: u32) -> bool
    ensures { result ≡ free_word word }
{
    SPENT_WORD <= word && word < FREE_END
}

// Whether a spent slot was met, this one included.
#[tactic(auto, using(std::proofs::lemmas::Bool::Decides::nat_tests), unfolding(crate::specs::Chain::met_spent))]
pub fn met_spent(spent: bool, word: u32) -> bool
    ensures { result ≡ met_spent spent word }
{
    spent || word == SPENT_WORD
}

// At the end of the chain, whose last slot was `before`.
#[tactic(auto, using(std::proofs::lemmas::Bool::Decides::nat_tests), unfolding(crate::specs::Chain::at_end))]
pub fn at_end(last: u32, before: u32, spent: bool) -> Verdict
    ensures { result ≡ at_end last before spent }
{
    if last != before {
        Verdict::Unsound
    } else if spent {
        Verdict::Spent
    } else {
        Verdict::Ready
    }
}

#[tactic(auto, using(crate::specs::ChainLaws::chain_turns))]
pub fn free_chain(words: &[u32], used: u32, first: u32, last: u32) -> Verdict
    requires { (used ≤ 65535) × (used * width ≤ length words.now) }
    ensures { result ≡ chain_run (used + 1) words.now used last false 0 first }
{
    let mut spent = false;
    let mut before = 0;
    let mut x = first;
    for _ in 0..=used {
        if x == 0 {
            return at_end(last, before, spent);
        }
        if used < x {
            return Verdict::Unsound;
        }
        let word = get_word(words, x, Slot::STAMP);
        if !is_free(word) {
            return Verdict::Unsound;
        }
        spent = met_spent(spent, word);
        before = x;
        x = get_word(words, x, Slot::NUMBER);
    }
    Verdict::Unsound
}
