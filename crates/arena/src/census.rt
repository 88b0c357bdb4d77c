// The census, counted by stamp over the slots in use.
ghost use Rattle.std.specs.Prelude.{◌≡◌, ◌*◌, ◌≤◌, length};
ghost use Rattle.link.specs.Words.{width, capacity_of};
ghost use Rattle.arena.specs.Census.{slots_that, stamp_in, census_of};

use link::header::Header;
use link::id::stamp_of;
use link::words::{Slot, capacity, get_word};

// Live; removed and not spent; spent; never used.
#[derive(Clone, Copy, Debug, PartialEq, Eq)]
pub struct Census {
    pub live: u32,
    pub free: u32,
    pub spent: u32,
    pub fresh: u32,
}

// How many slots in use have a stamp whose 16 bits lie from low to high. Summed and not filtered, so that no branch waits for a stamp;
// from the last slot back, which takes less where few slots are in use.
fn count_stamps(words: &[u32], used: u32, low: u32, high: u32) -> u32
    requires { used * width ≤ length words.now }
    ensures { result ≡ slots_that (stamp_in low high words.now) used }
{
    let mut count = 0;
    for i in (0..used).rev() {
        let stamp = stamp_of(get_word(words, i + 1, Slot::STAMP));
        count += u32::from((low..=high).contains(&stamp));
    }
    count
}

// The work of the live count.
#[tactic(auto, unfolding(crate::specs::Census::census_of))]
pub fn count_live(words: &[u32], h: Header) -> u32
    requires { h.used * width ≤ length words.now }
    ensures { result ≡ (census_of words.now h).live }
{
    count_stamps(words, h.used, 0, 32767)
}

// The work of the census.
#[tactic(auto, unfolding(crate::specs::Census::census_of))]
pub fn count_census(words: &[u32], h: Header) -> Census
    requires { h.used ≤ capacity_of (length words.now) }
    ensures { result ≡ census_of words.now h }
{
    let used = h.used;
    Census {
        live: count_live(words, h),
        free: count_stamps(words, used, 32769, 65535),
        spent: count_stamps(words, used, 32768, 32768),
        fresh: capacity(words) - used,
    }
}
