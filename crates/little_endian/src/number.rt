// One number, read from its bytes or written as bytes, at any place of a run of bytes that is long enough.
ghost use Rattle.std.specs.Prelude.{◌≡◌, ◌+◌, ◌≤◌, length};
ghost use Rattle.little_endian.specs.Bytes.{number_at, with_number};

// A function for each width: std reads and writes each by the methods of its own type, u16 and u32, so one function
// with the width as a parameter would need a trait over the two, and be no plainer.
pub fn get_16(bytes: &[u8], at: usize) -> u32
    requires { at + 2 ≤ length bytes.now }
    ensures { result ≡ number_at 2 bytes.now at }
{
    u32::from(u16::from_le_bytes([bytes[at], bytes[at + 1]]))
}

pub fn get_32(bytes: &[u8], at: usize) -> u32
    requires { at + 4 ≤ length bytes.now }
    ensures { result ≡ number_at 4 bytes.now at }
{
    u32::from_le_bytes([bytes[at], bytes[at + 1], bytes[at + 2], bytes[at + 3]])
}

// The low 16 bits of x.
pub fn put_16(bytes: &mut [u8], at: usize, x: u32)
    requires { at + 2 ≤ length bytes.old }
    ensures { bytes.new ≡ with_number 2 bytes.old at x }
{
    let two = ((x % 65536) as u16).to_le_bytes();
    bytes[at..at + 2].copy_from_slice(&two);
}

pub fn put_32(bytes: &mut [u8], at: usize, x: u32)
    requires { at + 4 ≤ length bytes.old }
    ensures { bytes.new ≡ with_number 4 bytes.old at x }
{
    let four = x.to_le_bytes();
    bytes[at..at + 4].copy_from_slice(&four);
}
