// Cases in text: a line has words and numbers, with a space between two of them.
ghost use Rattle.std.specs.Prelude.{◌<◌, ◌≤◌, length};
ghost use Rattle.io.specs.Counts.{IsPrefixLen};

// The descriptor of the standard input, which has the cases.
pub const STDIN: i32 = 0;

// Room for the text of a program whose cases are longer than the kit's large buffer.
pub const TEXT_ROOM: usize = 131_072;

// Takes each line of a text, without the byte that ends it.
pub fn each_line<F: Fn(&[u8])>(text: &[u8], case: F)
    requires { F.IsAlwaysCallable case }
{
    for line in text.split_inclusive(|&byte| byte == b'\n') {
        case(line.strip_suffix(b"\n").unwrap_or(line));
    }
}

// The first place from a start on that has the byte, or the end of the text.
pub fn find(text: &[u8], start: usize, byte: u8) -> usize
    requires { start ≤ length text.now }
    ensures { (start ≤ result) × IsPrefixLen result text.now }
{
    match text[start..].iter().position(|&b| b == byte) {
        Some(i) => start + i,
        None => text.len(),
    }
}

// The place after the word or number at a place and after the space behind it.
pub fn next(line: &[u8], place: usize) -> usize
    requires { place ≤ length line.now }
    ensures { (place ≤ result) × (result ≤ length line.now) × (place < length line.now → place < result) }
{
    let end = find(line, place, b' ');
    if end < line.len() { end + 1 } else { end }
}

// The number at a place, which is below 2 to the power 32.
pub fn number(line: &[u8], place: usize) -> u32 {
    let mut value = 0u64;
    for i in place..line.len() {
        let digit = digit(line[i]);
        if digit > 9 {
            return value as u32;
        }
        value = (value * 10 + digit) % 4_294_967_296;
    }
    value as u32
}

// The most numbers that a line has before its tables.
pub const MAX_NUMBERS: usize = 9;

// Numbers with zeros past the last, and where they end in the text.
#[derive(Clone, Copy)]
pub struct Numbers {
    pub values: [u32; MAX_NUMBERS],
    pub end: usize,
}

// The numbers from a place on, up to the next word.
pub fn read_numbers(line: &[u8], place: usize) -> Numbers
    requires { place ≤ length line.now }
    ensures { result.end ≤ length line.now }
{
    let mut values = [0; MAX_NUMBERS];
    let mut count = 0;
    let mut at = place;
    while at < line.len() {
        if digit(line[at]) > 9 {
            break;
        }
        if count < MAX_NUMBERS {
            values[count] = number(line, at);
            count += 1;
        }
        at = next(line, at);
    }
    Numbers { values, end: at }
}

// The value of a digit, or 10 for another byte.
pub(crate) fn digit(byte: u8) -> u64 {
    if byte < b'0' {
        return 10;
    }
    if byte > b'9' {
        return 10;
    }
    (byte - b'0') as u64
}
