// A trace: commands of twelve bytes, one after another, and perhaps a part of one at the end.
ghost use Rattle.std.specs.Prelude.{◌≡◌, ◌+◌, ◌≤◌, length};
ghost use Rattle.batch.specs.Trace.{size, command_at, answers_of};

use command::command::Command;
use little_endian::number::get_32;

// Bytes to a command.
pub const SIZE: usize = 12;

// The command whose bytes begin at a place.
pub fn command_at(trace: &[u8], at: usize) -> Command
    requires { at + size ≤ length trace.now }
    ensures { result ≡ command_at trace.now at }
{
    let first = get_32(trace, at);
    Command {
        code: (first % 256) as u8,
        unused: first / 256,
        a: get_32(trace, at + 4),
        b: get_32(trace, at + 8),
    }
}

// How many answers a trace of so many bytes asks for: one for each command, and one for a part.
pub fn answers_of(length: usize) -> usize
    ensures { result ≡ answers_of length }
{
    length.div_ceil(SIZE)
}
