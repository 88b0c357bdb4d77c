// What stands before the words of an image: its mark, version and header.
ghost use Rattle.std.specs.Prelude.{◌≡◌, ◌≤◌, length};
ghost use Rattle.std.proofs.lemmas.List.Edits.{sets};
ghost use Rattle.image.specs.Image.{mark, prefix, prefix_of, image_length, marked_b, header_in};

use link::header::Header;
use link::words::Slot;
use little_endian::number::{get_16, put_16};

// LFT.
pub const MARK: [u8; 3] = [76, 70, 84];

pub const VERSION: u32 = 1;

// Where the version, the header's three numbers and the words stand.
pub const AT_VERSION: usize = 3;

pub const AT_USED: usize = 5;

pub const AT_FIRST: usize = 7;

pub const AT_LAST: usize = 9;

pub const AT_WORDS: usize = 11;

// The bytes of an image of so many slots.
pub fn image_length(used: u32) -> usize
    ensures { result ≡ image_length used }
{
    AT_WORDS + 4 * (Slot::WORDS * (used as usize))
}

// These ask that the prefix lies within the bytes, each by itself: their definitions speak of all the bytes of the image.

// Whether the first three bytes are the mark.
pub fn marked(bytes: &[u8]) -> bool
    requires { prefix ≤ length bytes.now }
    ensures { result ≡ marked_b bytes.now }
{
    bytes.starts_with(&MARK)
}

// A function and no `From`: it asks for a whole prefix, which a `TryFrom` would test again.
pub fn read_header(bytes: &[u8]) -> Header
    requires { prefix ≤ length bytes.now }
    ensures { result ≡ header_in bytes.now }
{
    Header {
        used: get_16(bytes, AT_USED),
        first: get_16(bytes, AT_FIRST),
        last: get_16(bytes, AT_LAST),
    }
}

pub fn write_mark(bytes: &mut [u8])
    requires { prefix ≤ length bytes.old }
    ensures { bytes.new ≡ sets bytes.old 0 mark }
{
    bytes[..MARK.len()].copy_from_slice(&MARK);
}

pub fn write_prefix(bytes: &mut [u8], h: Header)
    requires { prefix ≤ length bytes.old }
    ensures { bytes.new ≡ sets bytes.old 0 (prefix_of h) }
{
    write_mark(bytes);
    put_16(bytes, AT_VERSION, VERSION);
    put_16(bytes, AT_USED, h.used);
    put_16(bytes, AT_FIRST, h.first);
    put_16(bytes, AT_LAST, h.last);
}
