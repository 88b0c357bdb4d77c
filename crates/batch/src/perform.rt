// The commands of a trace, one after the other, on memory of which something may be known already.
ghost use Rattle.std.specs.Prelude.{◌≡◌, ◌+◌, ◌-◌, ◌*◌, ◌≤◌, length, set, take};
ghost use Rattle.command.specs.Known.{Knows, ready};
ghost use Rattle.batch.specs.Trace.{size};
ghost use Rattle.batch.specs.Batch.{performed};
ghost use Rattle.batch.specs.Performing.{before, Performs};

use crate::trace::{SIZE, command_at};
use command::act::act;
use command::known::Known;
use command::start::start;
use link::header::Header;
use rules::answer::Reply;

// What is left of the commands done: the header, and what is known of the memory.
#[derive(Clone, Copy)]
pub struct Performed {
    pub header: Header,
    pub known: Known,
}

// Trace and list come whole, with how many commands count: so the definition `performed` takes the trace, and a caller lends its whole list.

// The i-th answer: two words of the list.
pub fn put_answer(list: &mut [u32], i: usize, reply: Reply)
    requires { 2 * i + 2 ≤ length list.old }
    ensures { list.new ≡ set (set list.old (2 * i) reply.number) (2 * i + 1) reply.result }
{
    list[2 * i] = reply.number;
    list[2 * i + 1] = reply.result;
}

// The commands from one on, up to the n-th, on memory that is known to be ready: nothing is examined.
fn perform_ready(
    words: &mut [u32],
    h: Header,
    scratch: &mut [u32],
    clean: usize,
    trace: &[u8],
    from: usize,
    n: usize,
    list: &mut [u32],
) -> Performed
    requires { Knows words.old h scratch.old (ready clean) × (from ≤ n) × (n * size ≤ length trace.now) × (2 * n ≤ length list.old) }
    ensures { Performs (before (take (2 * from) list.old) (performed (n - from) trace.now (from * size) words.old h scratch.old)) list.old words.new scratch.new list.new result }
{
    let mut header = h;
    let mut zeros = clean;
    for next in from..n {
        let c = command_at(trace, next * SIZE);
        let acted = act(words, header, scratch, zeros, c);
        let answer = acted.answer;
        let reply = Reply {
            number: answer.number,
            result: answer.result,
        };
        put_answer(list, next, reply);
        header = answer.header;
        zeros = acted.clean;
    }
    Performed {
        header,
        known: Known::ready(zeros),
    }
}

// The first n commands, and their answers from the first place of the list on. From the command on that finds memory ready, or where it
// is known to be from the first, nothing is examined.
pub fn perform(
    words: &mut [u32],
    h: Header,
    scratch: &mut [u32],
    known: Known,
    trace: &[u8],
    n: usize,
    list: &mut [u32],
) -> Performed
    requires { Knows words.old h scratch.old known × (n * size ≤ length trace.now) × (2 * n ≤ length list.old) }
    ensures { Performs (performed n trace.now 0 words.old h scratch.old) list.old words.new scratch.new list.new result }
{
    let mut knows = known;
    for i in 0..n {
        let c = command_at(trace, i * SIZE);
        let begun = start(words, h, scratch, knows, c);
        let Some(reply) = begun.reply else {
            return perform_ready(words, h, scratch, begun.known.clean, trace, i, n, list);
        };
        put_answer(list, i, reply);
        knows = begun.known;
    }
    Performed {
        header: h,
        known: knows,
    }
}
