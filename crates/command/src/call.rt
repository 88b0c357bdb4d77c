// Which call a code names: single codes and ranges of like codes. All others are refused before (`start`, `act`).
ghost use Rattle.std.specs.Prelude.{◌≡◌};
ghost use Rattle.command.specs.Calls.{place_of, word_of, call_of};

use crate::code::Code;
use link::words::Slot;
use moves::place::Place;

// The calls that change the tree and need ready memory.
#[derive(Clone, Copy, Debug, PartialEq, Eq)]
pub enum Change {
    New,
    Move(Place),
    Detach,
    DetachChildren,
    Remove,
    RemoveSubtree,
    RemoveChildren,
    Value(Place),
}

// What a command can ask for. A read is of the word that it gives.
#[derive(Clone, Copy, Debug, PartialEq, Eq)]
pub enum Call {
    Make(Change),
    Read(u32),
    Set,
    LiveCount,
    DescendantCount,
    Validate,
}

// The place of the n-th of four like codes. By number, as the definition `place_of`: codes are numbers of document 01 that stand in runs.
pub fn place_of(n: u8) -> Place
    ensures { result ≡ place_of n }
{
    match n {
        0 => Place::Append,
        1 => Place::Prepend,
        2 => Place::After,
        _ => Place::Before,
    }
}

// The word that the n-th of the five link reads gives; past these, the number. By number, as the definition `word_of`.
fn word_of(n: u8) -> u32
    ensures { result ≡ word_of n }
{
    match n {
        0 => Slot::PARENT,
        1 => Slot::FIRST,
        2 => Slot::LAST,
        3 => Slot::NEXT,
        4 => Slot::PREVIOUS,
        _ => Slot::NUMBER,
    }
}

pub fn call_of(code: u8) -> Call
    ensures { result ≡ call_of code }
{
    match code {
        Code::NEW => Call::Make(Change::New),
        Code::GET => Call::Read(Slot::NUMBER),
        Code::SET => Call::Set,
        Code::APPEND..=Code::INSERT_BEFORE => Call::Make(Change::Move(place_of(
            code - Code::APPEND,
        ))),
        Code::DETACH => Call::Make(Change::Detach),
        Code::DETACH_CHILDREN => Call::Make(Change::DetachChildren),
        Code::REMOVE => Call::Make(Change::Remove),
        Code::REMOVE_SUBTREE => Call::Make(Change::RemoveSubtree),
        Code::REMOVE_CHILDREN => Call::Make(Change::RemoveChildren),
        Code::PARENT..=Code::PREVIOUS => Call::Read(word_of(code - Code::PARENT)),
        Code::LIVE_COUNT => Call::LiveCount,
        Code::DESCENDANT_COUNT => Call::DescendantCount,
        Code::VALIDATE => Call::Validate,
        Code::APPEND_VALUE..=Code::LAST => Call::Make(Change::Value(place_of(
            code - Code::APPEND_VALUE,
        ))),
        _ => Call::Validate,
    }
}
