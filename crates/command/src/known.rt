// What a batch knows of the memory, so that it examines at most once: the verdict, and how many scratch words are zero already.
ghost use Rattle.std.specs.Prelude.{◌≡◌, Some, None, ◌*◌, ◌≤◌, length};
ghost use Rattle.link.specs.Words.{width};
ghost use Rattle.examine.specs.Scratch.{zeroed};
ghost use Rattle.examine.specs.declared.chain.Verdict.TheVariants as Is;
ghost use Rattle.command.specs.Known.{Knows, Cleaned, Looked, settled_to, ready, known_ready, seen};

use examine::chain::Verdict;
use examine::examine::examine;
use link::header::Header;

// The verdict, once it has looked.
#[derive(Clone, Copy, Debug, PartialEq, Eq)]
pub struct Known {
    pub verdict: Option<Verdict>,
    pub clean: usize,
}

// What a look finds.
#[derive(Clone, Copy, Debug, PartialEq, Eq)]
pub struct Seen {
    pub verdict: Verdict,
    pub clean: usize,
}

impl From<Seen> for Known {
    ghost from_gives = { λ s known. known ≡ seen s.verdict s.clean };

    fn from(s: Seen) -> Known {
        Known {
            verdict: Some(s.verdict),
            clean: s.clean,
        }
    }
}

impl Known {
    // Nothing yet. No `Default`: the name says what is known, as those of `fresh` and `ready` do.
    pub fn nothing() -> Known
        ensures { (result.verdict ≡ None) × (result.clean ≡ 0) }
    {
        Known {
            verdict: None,
            clean: 0,
        }
    }

    // An arena that nothing was put into is ready, whatever its words: it need not be examined.
    pub fn fresh() -> Known
        ensures { result ≡ ready 0 }
    {
        Known::ready(0)
    }

    // Memory that is known to be ready, with so many scratch words known to be zero.
    pub fn ready(clean: usize) -> Known
        ensures { result ≡ ready clean }
    {
        Known {
            verdict: Some(Verdict::Ready),
            clean,
        }
    }

    #[tactic(auto, unfolding(crate::specs::Known::known_ready))]
    pub fn is_ready(self) -> bool
        ensures { result ≡ known_ready self }
    {
        matches!(self.verdict, Some(Verdict::Ready))
    }

    // The verdict, where a look would find nothing to do: it is known, and the scratch words are zero.
    pub fn settled(self, used: u32) -> Option<Verdict>
        ensures { result ≡ settled_to self used }
    {
        if 2 * (used as usize) <= self.clean {
            self.verdict
        } else {
            None
        }
    }
}

// Zero up to n, where the first `clean` words are zero already. A function of one line for its contract, which says so by `zeroed`. How
// many are zero is a number beside scratch: that is lent whole, and there is no heap.
fn zero_from(scratch: &mut [u32], clean: usize, n: usize)
    requires { (zeroed clean scratch.old ≡ scratch.old) × (clean ≤ n) × (n ≤ length scratch.old) }
    ensures { scratch.new ≡ zeroed n scratch.old }
{
    scratch[clean..n].fill(0);
}

// The first n words zero, and how many are known to be.
fn clean_to(scratch: &mut [u32], clean: usize, n: usize) -> usize
    requires { (zeroed clean scratch.old ≡ scratch.old) × (clean ≤ length scratch.old) × (n ≤ length scratch.old) }
    ensures { Cleaned n scratch.old scratch.new result }
{
    if clean < n {
        zero_from(scratch, clean, n);
        return n;
    }
    clean
}

// The verdict: known, or by an examination; the first 2 × used scratch words are zero then.
pub fn look(words: &[u32], h: Header, scratch: &mut [u32], known: Known) -> Seen
    requires { (h.used ≤ 65535) × (h.used * width ≤ length words.now) × (2 * h.used ≤ length scratch.old) × Knows words.now h scratch.old known }
    ensures { Looked words.now h scratch.old scratch.new (seen result.verdict result.clean) }
{
    let n = 2 * (h.used as usize);
    match known.verdict {
        Some(verdict) => Seen {
            verdict,
            clean: clean_to(scratch, known.clean, n),
        },
        None => Seen {
            verdict: examine(words, h, scratch),
            clean: n,
        },
    }
}
