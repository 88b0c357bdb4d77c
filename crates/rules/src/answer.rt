// Document 01's numbers, and what a call hands back: its value or a refusal, and the same as a number of the table with a result.
ghost use Rattle.std.specs.Prelude.{◌≡◌, ℕ, cond};
ghost use Rattle.link.specs.declared.header.Header.{Header};
ghost use Rattle.rules.specs.Answers.{refusal_no, reply_by, answer_by};

use link::header::Header;

// Why a call is refused, by document 01's names.
#[derive(Clone, Copy, Debug, PartialEq, Eq)]
pub enum Refusal {
    Frame,
    Scratch,
    Invalid,
    Removed,
    SelfMove,
    Ancestor,
    Full,
    Room,
    Command,
    Part,
    Mark,
    Version,
    Length,
}

// The number of a call that is done.
pub const DONE: u32 = 0;

// The table of numbers answered.
impl From<Refusal> for u32 {
    ghost from_gives = { λ refusal number. number ≡ refusal_no refusal };

    fn from(refusal: Refusal) -> u32 {
        match refusal {
            Refusal::Frame => 1,
            Refusal::Scratch => 2,
            Refusal::Invalid => 3,
            Refusal::Removed => 4,
            Refusal::SelfMove => 5,
            Refusal::Ancestor => 6,
            Refusal::Full => 7,
            Refusal::Room => 8,
            Refusal::Command => 9,
            Refusal::Part => 10,
            Refusal::Mark => 11,
            Refusal::Version => 12,
            Refusal::Length => 13,
        }
    }
}

// What a creation hands back: the header then, and the identifier handed out.
#[derive(Clone, Copy, Debug, PartialEq, Eq)]
pub struct Created {
    pub header: Header,
    pub id: u32,
}

// In numbers, as C has them and as the definitions of specs/ answer them: what a call that leaves the header alone answers.
#[derive(Clone, Copy, Debug, PartialEq, Eq)]
pub struct Reply {
    pub number: u32,
    pub result: u32,
}

// In numbers likewise: what a call that may change the header answers.
#[derive(Clone, Copy, Debug, PartialEq, Eq)]
pub struct Answer {
    pub header: Header,
    pub number: u32,
    pub result: u32,
}

// What an accepted call hands back: its result as a number, and the header after it, of the one before.
pub trait Outcome: Copy {
    ghost value: { Self → ℕ };

    ghost after: { Header → Self → Header };

    fn value(self) -> u32
        ensures { result ≡ value self };

    fn after(self, before: Header) -> Header
        ensures { result ≡ after before self };
}

// Done, and no more.
impl Outcome for () {
    ghost value = { λ _. 0 };

    ghost after = { λ before _. before };

    fn value(self) -> u32 {
        0
    }

    fn after(self, before: Header) -> Header {
        before
    }
}

// A number or an identifier.
impl Outcome for u32 {
    ghost value = { λ n. n };

    ghost after = { λ before _. before };

    fn value(self) -> u32 {
        self
    }

    fn after(self, before: Header) -> Header {
        before
    }
}

// Yes or no: 1 or 0.
impl Outcome for bool {
    ghost value = { λ yes. cond yes 1 0 };

    ghost after = { λ before _. before };

    fn value(self) -> u32 {
        u32::from(self)
    }

    fn after(self, before: Header) -> Header {
        before
    }
}

// The header after a change that answers no number.
impl Outcome for Header {
    ghost value = { λ _. 0 };

    ghost after = { λ _ h. h };

    fn value(self) -> u32 {
        0
    }

    fn after(self, _before: Header) -> Header {
        self
    }
}

impl Outcome for Created {
    ghost value = { λ made. made.id };

    ghost after = { λ _ made. made.header };

    fn value(self) -> u32 {
        self.id
    }

    fn after(self, _before: Header) -> Header {
        self.header
    }
}

impl<T: Outcome> From<Result<T, Refusal>> for Reply {
    ghost from_gives = { λ said reply. reply ≡ reply_by T.value said };

    fn from(said: Result<T, Refusal>) -> Reply {
        match said {
            Ok(done) => Reply {
                number: DONE,
                result: done.value(),
            },
            Err(refusal) => Reply {
                number: u32::from(refusal),
                result: 0,
            },
        }
    }
}

impl Answer {
    // Of a call that came with this header, which stays where the call is refused.
    pub fn of<T: Outcome>(before: Header, said: Result<T, Refusal>) -> Answer
        ensures { result ≡ answer_by T.after T.value before said }
    {
        match said {
            Ok(done) => Answer {
                header: done.after(before),
                number: DONE,
                result: done.value(),
            },
            Err(refusal) => Answer {
                header: before,
                number: u32::from(refusal),
                result: 0,
            },
        }
    }
}
