// A command where memory is not known to be ready. It is answered, or the examination finds memory ready and it is still to be done.
ghost use Rattle.std.specs.Prelude.{◌≡◌};
ghost use Rattle.rules.specs.Answers.{reply, refusal_no};
ghost use Rattle.command.specs.Commands.{called, commanded};
ghost use Rattle.command.specs.Known.{Knows, Gated};
ghost use Rattle.command.specs.Acts.{replies, readies, Enters, Starts};
ghost use Rattle.command.specs.declared.call.Call.TheVariants as Calls;

use crate::call::{Call, call_of};
use crate::code::{Code, is_acceptable};
use crate::command::Command;
use crate::known::{Known, look};
use arena::node::{read, set};
use link::header::Header;
use rules::answer::{Refusal, Reply};
use sound::{fit, ready};

// What the guard says, and what is known then. Known goes in and comes out by value, on a refusal too: so the definition `Gated` has it.
#[derive(Clone, Copy)]
pub struct Gate {
    pub said: Result<(), Refusal>,
    pub known: Known,
}

// What comes of starting a command: its answer, but for the header, which stays; or none, and memory is ready and the command is still to
// be done. And what is known then. The definitions `replies` and `readies` answer this record, with the reply in numbers.
#[derive(Clone, Copy)]
pub struct Begun {
    pub reply: Option<Reply>,
    pub known: Known,
}

fn replied(reply: Reply, known: Known) -> Begun
    ensures { result ≡ replies reply known }
{
    Begun {
        reply: Some(reply),
        known,
    }
}

fn refused(refusal: Refusal, known: Known) -> Begun
    ensures { result ≡ replies (reply (refusal_no refusal) 0) known }
{
    replied(Reply::from(Err::<(), Refusal>(refusal)), known)
}

fn readied(known: Known) -> Begun
    ensures { result ≡ readies known }
{
    Begun { reply: None, known }
}

// The guard of every call that needs ready memory; it tests nothing where that is settled, and examines only where nothing is known.
fn pass(words: &[u32], h: Header, scratch: &mut [u32], known: Known) -> Gate
    requires { Knows words.now h scratch.old known }
    ensures { Gated words.now h scratch.old scratch.new result }
{
    if let Some(verdict) = known.settled(h.used) {
        return Gate {
            said: ready(verdict),
            known,
        };
    }
    match fit(words, h.used, scratch) {
        Ok(()) => {
            let seen = look(words, h, scratch, known);
            Gate {
                said: ready(seen.verdict),
                known: Known::from(seen),
            }
        }
        Err(refusal) => Gate {
            said: Err(refusal),
            known,
        },
    }
}

// Sound or not: the verdict, where memory fits.
fn judge(words: &[u32], h: Header, scratch: &mut [u32], known: Known) -> Begun
    requires { Knows words.now h scratch.old known }
    ensures { Starts (called Calls.Validate 0 0) words.now h scratch.old words.now scratch.new result }
{
    match fit(words, h.used, scratch) {
        Ok(()) => {
            let seen = look(words, h, scratch, known);
            let reply = Reply::from(Ok(seen.verdict.is_sound()));
            replied(reply, Known::from(seen))
        }
        Err(refusal) => refused(refusal, known),
    }
}

// A command that needs ready memory: refused, or memory is ready.
fn enter(words: &[u32], h: Header, scratch: &mut [u32], known: Known) -> Begun
    requires { Knows words.now h scratch.old known }
    ensures { Enters words.now h scratch.old scratch.new result }
{
    let gate = pass(words, h, scratch, known);
    match gate.said {
        Ok(()) => readied(gate.known),
        Err(refusal) => refused(refusal, gate.known),
    }
}

fn begin(
    words: &mut [u32],
    h: Header,
    scratch: &mut [u32],
    known: Known,
    call: Call,
    a: u32,
    b: u32,
) -> Begun
    requires { Knows words.old h scratch.old known }
    ensures { Starts (called call a b) words.old h scratch.old words.new scratch.new result }
{
    match call {
        Call::Make(_) | Call::LiveCount | Call::DescendantCount => enter(words, h, scratch, known),
        Call::Read(k) => replied(Reply::from(read(words, h, a, k)), known),
        Call::Set => replied(Reply::from(set(words, h, a, b)), known),
        Call::Validate => judge(words, h, scratch, known),
    }
}

// A command where memory is not known to be ready: it is answered, or memory is ready and the command still to be done.
pub fn start(words: &mut [u32], h: Header, scratch: &mut [u32], known: Known, c: Command) -> Begun
    requires { Knows words.old h scratch.old known }
    ensures { Starts (commanded c) words.old h scratch.old words.new scratch.new result }
{
    if known.is_ready() {
        return readied(known);
    }
    match c.code {
        Code::NEW..=Code::LAST => {
            if is_acceptable(c.code, c.unused, c.a, c.b) {
                return begin(words, h, scratch, known, call_of(c.code), c.a, c.b);
            }
            refused(Refusal::Command, known)
        }
        _ => refused(Refusal::Command, known),
    }
}
