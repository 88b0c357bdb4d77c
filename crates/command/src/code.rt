// The code table: how many arguments each code uses, what leads to its work, and whether a command of a known code is acceptable.
ghost use Rattle.std.specs.Prelude.{◌≡◌, ◌<◌, ◌≤◌, true};
ghost use Rattle.command.specs.Codes.{arguments_of, acceptable};
ghost use Rattle.command.specs.Kinds.{call_as};
ghost use Rattle.command.specs.Acts.{free_b};

use link::words::Slot;
use moves::place::Place;

// The codes of document 01, 1 to 24. Only the constants are used: document 01 wants a match on the number.
#[derive(Clone, Copy, Debug, PartialEq, Eq)]
pub struct Code;

impl Code {
    pub const LAST: u8 = 24;

    pub const NEW: u8 = 1;

    pub const GET: u8 = 2;

    pub const SET: u8 = 3;

    pub const APPEND: u8 = 4;

    pub const INSERT_BEFORE: u8 = 7;

    pub const DETACH: u8 = 8;

    pub const DETACH_CHILDREN: u8 = 9;

    pub const REMOVE: u8 = 10;

    pub const REMOVE_SUBTREE: u8 = 11;

    pub const REMOVE_CHILDREN: u8 = 12;

    pub const PARENT: u8 = 13;

    pub const PREVIOUS: u8 = 17;

    pub const LIVE_COUNT: u8 = 18;

    pub const DESCENDANT_COUNT: u8 = 19;

    pub const VALIDATE: u8 = 20;

    pub const APPEND_VALUE: u8 = 21;

    // Arguments used by each code, from 1 on.
    pub const ARGUMENTS: [u8; 24] = [
        1, 1, 2, 2, 2, 2, 2, 1, 1, 1, 1, 1, 1, 1, 1, 1, 1, 0, 1, 0, 2, 2, 2, 2,
    ];

    // The greatest first and second argument of a code that uses none, one or two: an argument that is not used is zero.
    pub const LIMITS: [u32; 6] = [0, 0, u32::MAX, 0, u32::MAX, u32::MAX];
}

// A call without its arguments, as `call::Call` has it but in one level, so that one jump leads to what is done: a match on `Call` is one
// at each level. `Call` stays beside it: the definitions of the commands speak of it, and `call_as` says which one a work is.
#[derive(Clone, Copy, Debug, PartialEq, Eq)]
pub enum Work {
    Read(u32),
    Set,
    New,
    Move(Place),
    Value(Place),
    Detach,
    DetachChildren,
    Remove,
    RemoveSubtree,
    RemoveChildren,
    LiveCount,
    DescendantCount,
    Validate,
}

impl Work {
    // Reads and set need neither scratch nor ready memory.
    pub fn is_free(self) -> bool
        ensures { result ≡ free_b (call_as self) }
    {
        matches!(self, Work::Read(_) | Work::Set)
    }
}

// What each code does, from 1 on. A static: a constant of this type is laid out anew at each use.
pub static WORK: [Work; 24] = [
    Work::New,
    Work::Read(Slot::NUMBER),
    Work::Set,
    Work::Move(Place::Append),
    Work::Move(Place::Prepend),
    Work::Move(Place::After),
    Work::Move(Place::Before),
    Work::Detach,
    Work::DetachChildren,
    Work::Remove,
    Work::RemoveSubtree,
    Work::RemoveChildren,
    Work::Read(Slot::PARENT),
    Work::Read(Slot::FIRST),
    Work::Read(Slot::LAST),
    Work::Read(Slot::NEXT),
    Work::Read(Slot::PREVIOUS),
    Work::LiveCount,
    Work::DescendantCount,
    Work::Validate,
    Work::Value(Place::Append),
    Work::Value(Place::Prepend),
    Work::Value(Place::After),
    Work::Value(Place::Before),
];

// How many arguments a code uses, by the table.
pub fn arguments_of(code: u8) -> u8
    requires { (0 < code) × (code ≤ 24) }
    ensures { result ≡ arguments_of code }
{
    Code::ARGUMENTS[(code - 1) as usize]
}

// Of a known code: whether its three unused bytes are zero, and each argument that it does not use.
pub fn is_acceptable(code: u8, unused: u32, a: u32, b: u32) -> bool
    requires { (0 < code) × (code ≤ 24) }
    ensures { result ≡ acceptable code unused a b }
{
    if unused != 0 {
        return false;
    }
    let at = 2 * (arguments_of(code) as usize);
    a <= Code::LIMITS[at] && b <= Code::LIMITS[at + 1]
}
