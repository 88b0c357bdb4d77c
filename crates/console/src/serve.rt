// Commands of twelve bytes from standard input to its end, over an arena of 2,048 slots; a line for each answer on standard output.
// What a turn does is stated in `turn`; here bytes come and go. A read or write that fails is told on standard error, and ends it.
ghost use Rattle.std.specs.Prelude.{◌≡◌, ◌+◌, ◌≤◌, IfOk, IfSome, length};
ghost use Rattle.command.specs.Known.{Knows};

use crate::turn::take_turn;
use arena::arena::clear;
use command::known::Known;
use link::header::Header;
use std::io::{Print, Read as _};
use std::{fmt, io};

// What failed.
#[derive(Debug, Drop)]
enum Failure {
    Input(io::Error),
    Output(io::Error),
}

impl fmt::Display for Failure {
    fn fmt<W: fmt::Write>(&self, f: &mut fmt::Formatter<W>) -> fmt::Result {
        match self {
            Failure::Input(error) => write!(f, "lift: standard input: {error}"),
            Failure::Output(error) => write!(f, "lift: standard output: {error}"),
        }
    }
}

// The header, what is known of the memory, and how many bytes of a command have come.
#[derive(Clone, Copy)]
struct State {
    header: Header,
    known: Known,
    kept: usize,
}

// One read, after the bytes that are kept: how many bytes it brought, none at the end of the input.
// The bytes come whole, since the next turn reads those that are kept with those that came.
fn receive(rt: &HostRuntime, bytes: &mut [u8], kept: usize) -> Result<usize, Failure>
    requires { kept ≤ length bytes.old }
    ensures { IfOk result (λ came. kept + came ≤ length bytes.old) }
{
    rt.stdin().read(&mut bytes[kept..]).map_err(Failure::Input)
}

fn send(rt: &HostRuntime, text: &[u8]) -> Result<(), Failure> {
    rt.write_all(text).map_err(Failure::Output)
}

// One read, the commands that are whole then, and one write. None at the end of the input, where a cut-off command is answered PART.
fn exchange(
    rt: &HostRuntime,
    words: &mut [u32],
    scratch: &mut [u32],
    bytes: &mut [u8],
    list: &mut [u32],
    out: &mut [u8],
    state: State,
) -> Result<Option<State>, Failure>
    requires { Knows words.old state.header scratch.old state.known × (state.kept ≤ 11) × (length bytes.old ≡ 49152) × (length list.old ≡ 8192) × (length out.old ≡ 90112) }
    ensures { IfOk result (λ next. IfSome next (λ s. Knows words.new s.header scratch.new s.known × (s.kept ≤ 11))) }
{
    let kept = state.kept;
    let came = receive(rt, bytes, kept)?;
    if came == 0 {
        if kept > 0 {
            // PART and no result. The line never varies: as text it is shorter than by `put_line`, which asks for room to write to.
            send(rt, b"10 0\n")?;
        }
        return Ok(None);
    }
    let turn = take_turn(
        words,
        state.header,
        scratch,
        state.known,
        bytes,
        kept + came,
        list,
        out,
    );
    send(rt, &out[..turn.text])?;
    Ok(Some(State {
        header: turn.header,
        known: turn.known,
        kept: turn.left,
    }))
}

// Until the input ends; a proved loop has to end, and the turns are more than any run takes.
fn run(
    rt: &HostRuntime,
    words: &mut [u32],
    scratch: &mut [u32],
    bytes: &mut [u8],
    list: &mut [u32],
    out: &mut [u8],
) -> Result<(), Failure>
    requires { (length bytes.old ≡ 49152) × (length list.old ≡ 8192) × (length out.old ≡ 90112) }
{
    let mut state = State {
        header: clear(),
        known: Known::fresh(),
        kept: 0,
    };
    for _ in 0..u64::MAX {
        let Some(next) = exchange(rt, words, scratch, bytes, list, out, state)? else {
            return Ok(());
        };
        state = next;
    }
    Ok(())
}

// The whole of the program `lift`.
pub fn serve(rt: &HostRuntime) {
    let mut words = [0u32; 14336];
    let mut scratch = [0u32; 4096];
    let mut bytes = [0u8; 49152];
    let mut list = [0u32; 8192];
    let mut out = [0u8; 90112];
    let ended = run(
        rt,
        &mut words,
        &mut scratch,
        &mut bytes,
        &mut list,
        &mut out,
    );
    if let Err(failure) = ended {
        let _ = eprintln!(rt; "{failure}");
    }
}
