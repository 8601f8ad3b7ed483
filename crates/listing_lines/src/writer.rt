// Text put into a buffer piece by piece. Each function takes the place of its piece and answers the next place. What has no room
// is left out, and counted all the same.
ghost use Rattle.std.specs.Prelude.{[], ◌∷◌, ◌+◌, ◌*◌, ◌<◌, ◌≤◌, length};
ghost use Rattle.listing_lines.specs.TextLines.{space, decimal, signed_decimal, field, fields, line};
ghost use Rattle.listing_lines.specs.Appending.{text_room, digit_room, number_room, line_room, Appended};

use integers::magnitude;

pub(crate) fn put_byte(text: &mut [u8], place: usize, byte: u8) -> usize
    requires { place < text_room }
    ensures { Appended text.old place (byte ∷ []) 1 text.new result }
{
    if place < text.len() {
        text[place] = byte;
    }
    place + 1
}

pub(crate) fn put_bytes(text: &mut [u8], place: usize, bytes: &[u8]) -> usize
    requires { place + length bytes.now ≤ text_room }
    ensures { Appended text.old place bytes.now (length bytes.now) text.new result }
{
    let mut next = place;
    for &byte in bytes {
        next = put_byte(text, next, byte);
    }
    next
}

// A number in decimal; 64 bits have at most 20 digits.
fn put_decimal(text: &mut [u8], place: usize, number: u64) -> usize
    requires { place + digit_room ≤ text_room }
    ensures { Appended text.old place (decimal number) digit_room text.new result }
{
    let mut digits = [0u8; 20];
    let count = io::decimal(number, &mut digits);
    put_bytes(text, place, &digits[..count])
}

// A space and a number.
fn put_number(text: &mut [u8], place: usize, number: u64) -> usize
    requires { place + number_room ≤ text_room }
    ensures { Appended text.old place (field number) number_room text.new result }
{
    let next = put_byte(text, place, b' ');
    put_decimal(text, next, number)
}

// A space and a number that may be negative.
pub(crate) fn put_signed(text: &mut [u8], place: usize, number: i64) -> usize
    requires { place + (number_room + 1) ≤ text_room }
    ensures { Appended text.old place (space ∷ signed_decimal number) (number_room + 1) text.new result }
{
    let next = put_byte(text, place, b' ');
    if number < 0 {
        let first = put_byte(text, next, b'-');
        return put_decimal(text, first, magnitude(number));
    }
    put_decimal(text, next, magnitude(number))
}

// Each number after a space.
pub(crate) fn put_numbers(text: &mut [u8], place: usize, numbers: &[u64]) -> usize
    requires { place + number_room * length numbers.now ≤ text_room }
    ensures { Appended text.old place (fields numbers.now) (number_room * length numbers.now) text.new result }
{
    let mut next = place;
    for &number in numbers {
        next = put_number(text, next, number);
    }
    next
}

// A line: its word, its numbers, and a newline.
pub(crate) fn put_line(text: &mut [u8], place: usize, word: &[u8], numbers: &[u64]) -> usize
    requires { place + line_room (length word.now) (length numbers.now) ≤ text_room }
    ensures { Appended text.old place (line word.now numbers.now)
        (line_room (length word.now) (length numbers.now)) text.new result }
{
    let first = put_bytes(text, place, word);
    let last = put_numbers(text, first, numbers);
    put_byte(text, last, b'\n')
}
