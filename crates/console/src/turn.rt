// One turn of the program: the whole commands among the bytes that came, their lines, and what is left of the bytes.
ghost use Rattle.std.specs.Prelude.{◌≡◌, ◌+◌, ◌*◌, ◌/◌, ◌%◌, ◌≤◌, length, take, drop};
ghost use Rattle.command.specs.Known.{Knows};
ghost use Rattle.batch.specs.Trace.{size};
ghost use Rattle.batch.specs.Batch.{performed};
ghost use Rattle.console.specs.Turns.{Turns};

use batch::perform::perform;
use batch::trace::SIZE;
use command::known::Known;
use lines::lines::put_lines;
use link::header::Header;

// The header and what is known then, how many bytes of text there are, and how many bytes are left.
#[derive(Clone, Copy)]
pub struct Turn {
    pub header: Header,
    pub known: Known,
    pub text: usize,
    pub left: usize,
}

// The first `total` bytes have come. The bytes are lent whole: what is left of them is moved to their front.
pub fn take_turn(
    words: &mut [u32],
    h: Header,
    scratch: &mut [u32],
    known: Known,
    bytes: &mut [u8],
    total: usize,
    list: &mut [u32],
    out: &mut [u8],
) -> Turn
    requires { Knows words.old h scratch.old known × (total ≤ length bytes.old) × (2 * (total / size) ≤ length list.old) × (22 * (total / size) ≤ length out.old) }
    ensures { Turns total bytes.old (performed (total / size) bytes.old 0 words.old h scratch.old) words.new scratch.new bytes.new out.new result }
{
    let n = total / SIZE;
    let left = total % SIZE;
    let done = perform(words, h, scratch, known, bytes, n, list);
    let text = put_lines(list, n, out);
    bytes.copy_within(n * SIZE..total, 0);
    Turn {
        header: done.header,
        known: done.known,
        text,
        left,
    }
}
