// A command on memory that is known to be ready: COMMAND, then SCRATCH where it needs scratch, then its work. Nothing is examined.
ghost use Rattle.std.specs.Prelude.{◌≡◌};
ghost use Rattle.rules.specs.Answers.{answer, refusal_no};
ghost use Rattle.command.specs.Commands.{commanded};
ghost use Rattle.command.specs.Known.{ready, Knows, Did};
ghost use Rattle.command.specs.Kinds.{call_as};
ghost use Rattle.command.specs.Acts.{acts, free_b, Roomed};

use crate::code::{Code, WORK, Work, is_acceptable};
use crate::command::Command;
use crate::known::{Known, look};
use crate::work::work;
use link::header::Header;
use rules::answer::{Answer, Refusal};
use sound::fit;

// What a command answers on ready memory, which stays so, and how many scratch words are known to be zero then. The definition `acts`
// answers this record.
#[derive(Clone, Copy)]
pub struct Acted {
    pub answer: Answer,
    pub clean: usize,
}

// The guard of a command on ready memory: SCRATCH, unless it is free of the guard; else how many scratch words are known to be zero then.
fn admit(
    words: &[u32],
    h: Header,
    scratch: &mut [u32],
    clean: usize,
    to_do: Work,
) -> Result<usize, Refusal>
    requires { Knows words.now h scratch.old (ready clean) }
    ensures { Roomed (free_b (call_as to_do)) words.now h scratch.old scratch.new clean result }
{
    if 2 * (h.used as usize) <= clean || to_do.is_free() {
        return Ok(clean);
    }
    fit(words, h.used, scratch)?;
    Ok(look(words, h, scratch, Known::ready(clean)).clean)
}

fn turn_down(h: Header, refusal: Refusal, clean: usize) -> Acted
    ensures { result ≡ acts (answer h (refusal_no refusal) 0) clean }
{
    let answer = Answer::of(h, Err::<(), Refusal>(refusal));
    Acted { answer, clean }
}

// One command on memory that is known to be ready, and how many scratch words are known to be zero after it.
pub fn act(words: &mut [u32], h: Header, scratch: &mut [u32], clean: usize, c: Command) -> Acted
    requires { Knows words.old h scratch.old (ready clean) }
    ensures { Did (commanded c words.old h scratch.old) words.new scratch.new result.answer (ready result.clean) }
{
    match c.code {
        Code::NEW..=Code::LAST => {
            if !is_acceptable(c.code, c.unused, c.a, c.b) {
                return turn_down(h, Refusal::Command, clean);
            }
            let to_do = WORK[(c.code - 1) as usize];
            match admit(words, h, scratch, clean, to_do) {
                Ok(clean) => Acted {
                    answer: work(words, h, to_do, c.a, c.b),
                    clean,
                },
                Err(refusal) => turn_down(h, refusal, clean),
            }
        }
        _ => turn_down(h, Refusal::Command, clean),
    }
}
