// A command, and one command on a lent arena: it is started, and done if that did not answer it.
ghost use Rattle.std.specs.Prelude.{◌≡◌};
ghost use Rattle.command.specs.Commands.{commanded};

use crate::act::act;
use crate::known::Known;
use crate::start::start;
use link::header::Header;
use rules::answer::Answer;

// Twelve bytes of a trace: the code, its three unused bytes as one number, and the two arguments.
#[derive(Clone, Copy, Debug, PartialEq, Eq)]
pub struct Command {
    pub code: u8,
    pub unused: u32,
    pub a: u32,
    pub b: u32,
}

// One command on any memory. An `Answer` and no `Result`, as the definition `commanded`; a reply gets its header here alone.
pub fn one_command(words: &mut [u32], h: Header, scratch: &mut [u32], c: Command) -> Answer
    ensures { (words.new, scratch.new, result) ≡ commanded c words.old h scratch.old }
{
    let begun = start(words, h, scratch, Known::nothing(), c);
    match begun.reply {
        Some(reply) => Answer {
            header: h,
            number: reply.number,
            result: reply.result,
        },
        None => act(words, h, scratch, begun.known.clean, c).answer,
    }
}
