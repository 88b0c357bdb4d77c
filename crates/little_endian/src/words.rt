// Runs of 32-bit words, four bytes to a word.
ghost use Rattle.std.specs.Prelude.{◌≡◌, ◌+◌, ◌*◌, ◌≤◌, length, take};
ghost use Rattle.std.proofs.lemmas.List.Edits.{sets};
ghost use Rattle.little_endian.specs.Bytes.{bytes_of_each, numbers_at};

use crate::number::{get_32, put_32};

// How many words stays a parameter of its own: callers lend the whole memory. The contract of `get_words` speaks of all of it,
// and `put_words` keeps the same form.

// The first n words, as bytes from `at` on.
pub fn put_words(bytes: &mut [u8], at: usize, words: &[u32], n: usize)
    requires { (n ≤ length words.now) × (at + 4 * n ≤ length bytes.old) }
    ensures { bytes.new ≡ sets bytes.old at (bytes_of_each 4 (take n words.now)) }
{
    for i in 0..n {
        put_32(bytes, at + 4 * i, words[i]);
    }
}

// The first n words are those whose bytes stand from `at` on.
pub fn get_words(bytes: &[u8], at: usize, words: &mut [u32], n: usize)
    requires { (n ≤ length words.old) × (at + 4 * n ≤ length bytes.now) }
    ensures { words.new ≡ sets words.old 0 (numbers_at 4 n bytes.now at) }
{
    for i in 0..n {
        words[i] = get_32(bytes, at + 4 * i);
    }
}
