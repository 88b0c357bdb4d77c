// The batch: ROOM before any command, PART at the end, else DONE and the number of answers.
ghost use Rattle.std.specs.Prelude.{◌≡◌, ◌*◌, ◌≤◌, length};
ghost use Rattle.batch.specs.Batch.{batched};
ghost use Rattle.batch.specs.Answered.{answer_batched};
ghost use Rattle.batch.specs.BatchLaws.{with_part};

use crate::perform::{perform, put_answer};
use crate::trace::{SIZE, answers_of};
use command::known::Known;
use link::header::Header;
use rules::answer::{Outcome, Refusal, Reply};

// What a batch hands back: the header after it, and how many answers there are, as a 32-bit word. A type beside `Created`, whose number is
// an identifier and no count.
#[derive(Clone, Copy, Debug, PartialEq, Eq)]
pub struct Batched {
    pub header: Header,
    pub count: u32,
}

impl Outcome for Batched {
    ghost value = { λ b. b.count };

    ghost after = { λ _ b. b.header };

    fn value(self) -> u32 {
        self.count
    }

    fn after(self, _before: Header) -> Header {
        self.header
    }
}

// PART after n answers, where one more is asked for. As two words of the list, by `with_part`; the list and how many are in it come as
// that definition takes them.
fn put_part(list: &mut [u32], n: usize, count: usize)
    requires { (n ≤ count) × (2 * count ≤ length list.old) }
    ensures { list.new ≡ with_part n count list.old }
{
    if n < count {
        put_answer(list, n, Reply::from(Err::<(), Refusal>(Refusal::Part)));
    }
}

pub fn batch(
    words: &mut [u32],
    h: Header,
    scratch: &mut [u32],
    trace: &[u8],
    list: &mut [u32],
) -> Result<Batched, Refusal>
    ensures { (words.new, scratch.new, list.new, answer_batched h result) ≡ batched words.old h scratch.old trace.now list.old }
{
    let count = answers_of(trace.len());
    if list.len() < 2 * count {
        return Err(Refusal::Room);
    }
    let n = trace.len() / SIZE;
    let done = perform(words, h, scratch, Known::nothing(), trace, n, list);
    put_part(list, n, count);
    Ok(Batched {
        header: done.header,
        count: (count % 4294967296) as u32,
    })
}
