// A 32-bit number in decimal, with no zeros in front, written to lent bytes from a place on.
ghost use Rattle.std.specs.Prelude.{◌≡◌, List, ℕ, ◌+◌, ◌≤◌, length};
ghost use Rattle.std.proofs.lemmas.List.Edits.{sets};
ghost use Rattle.lines.specs.Decimal.{places_of, digits_of, text_of};

// Bytes and place come apart, as std's definition `sets` takes them: numbers are written one behind another to lent bytes.

// How many digits a number has.
pub fn places(n: u32) -> usize
    ensures { result ≡ places_of n }
{
    n.max(1).ilog10() as usize + 1
}

// The last k digits, from the last one back.
fn put_digits(out: &mut [u8], at: usize, k: usize, n: u32)
    requires { at + k ≤ length out.old }
    ensures { out.new ≡ sets out.old at (digits_of k n) }
{
    let mut rest = n;
    for i in (0..k).rev() {
        out[at + i] = b'0' + (rest % 10) as u8;
        rest /= 10;
    }
}

// The number, from a place on; the place after it. Most numbers have one digit, which need not be counted.
pub fn put_number(out: &mut [u8], at: usize, n: u32) -> usize
    requires { at + 10 ≤ length out.old }
    ensures { ◌≡◌ {A = List ℕ × ℕ} (out.new, result) (sets out.old at (text_of n), at + length (text_of n)) }
{
    if n < 10 {
        out[at] = b'0' + n as u8;
        return at + 1;
    }
    let k = places(n);
    put_digits(out, at, k, n);
    at + k
}
