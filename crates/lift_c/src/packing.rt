// The header as three words, both ways; and what a call handed back as its number and a result behind a pointer.
ghost use Rattle.std.specs.Prelude.{◌≡◌};
ghost use Rattle.rules.specs.Answers.{reply, reply_by, answer, answer_by};
ghost use Rattle.lift_c.specs.Face.{header_of};

use link::header::Header;
use rules::answer::{Answer, Outcome, Refusal, Reply};

// Functions and no `From`: neither `Header` nor an array is a type of this crate.
pub fn header_of(header: &[u32; 3]) -> Header
    ensures { result ≡ header_of header.now }
{
    let [used, first, last] = *header;
    Header { used, first, last }
}

pub fn put_header(header: &mut [u32; 3], h: Header)
    ensures { header_of header.new ≡ h }
{
    *header = [h.used, h.first, h.last];
}

// Of a call that leaves the header alone.
pub fn put_reply<T: Outcome>(res: &mut u32, said: Result<T, Refusal>) -> u32
    ensures { reply result res.new ≡ reply_by T.value said }
{
    let reply = Reply::from(said);
    *res = reply.result;
    reply.number
}

// Of a call that came with the header h.
pub fn put_answer<T: Outcome>(
    header: &mut [u32; 3],
    res: &mut u32,
    h: Header,
    said: Result<T, Refusal>,
) -> u32
    ensures { answer (header_of header.new) result res.new ≡ answer_by T.after T.value h said }
{
    let answer = Answer::of(h, said);
    put_header(header, answer.header);
    *res = answer.result;
    answer.number
}
