// A line for each answer, one after another, from the first of lent bytes on.
ghost use Rattle.std.specs.Prelude.{◌≡◌, List, ℕ, ◌+◌, ◌*◌, ◌≤◌, length};
ghost use Rattle.std.proofs.lemmas.List.Edits.{sets};
ghost use Rattle.lines.specs.Lines.{line_of, lines_of};

use crate::decimal::put_number;

// The longest line: two numbers of ten digits, a space and a newline.
pub const LONGEST: usize = 22;

// The line of one answer, from a place on; the place after it.
pub fn put_line(out: &mut [u8], at: usize, number: u32, res: u32) -> usize
    requires { at + 22 ≤ length out.old }
    ensures { ◌≡◌ {A = List ℕ × ℕ} (out.new, result) (sets out.old at (line_of number res), at + length (line_of number res)) }
{
    let space = put_number(out, at, number);
    out[space] = b' ';
    let end = put_number(out, space + 1, res);
    out[end] = b'\n';
    end + 1
}

// How many answers stays a parameter of its own, as in the definition `lines_of`: the caller lends its whole list.

// The lines of the first n answers of a list, two words each; how many bytes they have.
pub fn put_lines(list: &[u32], n: usize, out: &mut [u8]) -> usize
    requires { (2 * n ≤ length list.now) × (22 * n ≤ length out.old) }
    ensures { ◌≡◌ {A = List ℕ × ℕ} (out.new, result) (sets out.old 0 (lines_of n list.now 0), length (lines_of n list.now 0)) }
{
    let mut at = 0;
    for i in 0..n {
        at = put_line(out, at, list[2 * i], list[2 * i + 1]);
    }
    at
}
