// Lines and decimal numbers of a text.
ghost use Rattle.std.specs.Prelude.{◌≤◌, length};

// A number with a digit behind it; 4,294,967,290 and above are read as 4,294,967,295. Other bytes are passed over.
// Not by `parse`, which refuses both.
fn with_digit(number: u32, byte: u8) -> u32 {
    match byte {
        b'0'..=b'9' if number <= 429496728 => number * 10 + u32::from(byte - b'0'),
        b'0'..=b'9' => u32::MAX,
        _ => number,
    }
}

// The numbers of a line, one space between, put at the start of `numbers`; answers how many, at most as many as there is room for.
pub fn numbers_of(line: &[u8], numbers: &mut [u32]) -> usize
    ensures { result ≤ length numbers.new }
{
    let mut count = 0;
    for digits in line.split(|byte| *byte == b' ') {
        if count == numbers.len() {
            break;
        }
        numbers[count] = digits
            .iter()
            .fold(0, |number, byte| with_digit(number, *byte));
        count += 1;
    }
    count
}
