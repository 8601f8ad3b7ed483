// Printing the line of a case.
ghost use Rattle.std.specs.Prelude.{◌≤◌, length};

use crate::text::find;
use integers::magnitude;
use model::Refusal;

// The descriptor of the standard output.
pub const STDOUT: i32 = 1;

pub fn words(text: &[u8]) {
    io::write_all(STDOUT, text);
}

// A line's words, up to the one at a place.
pub fn words_to(line: &[u8], place: usize)
    requires { place ≤ length line.now }
{
    let end = find(line, place, b' ');
    words(&line[..end]);
}

pub fn number(value: u64) {
    words(b" ");
    io::print_decimal(STDOUT, value);
}

pub fn signed(value: i64) {
    if value < 0 {
        words(b" -");
    } else {
        words(b" ");
    }
    io::print_decimal(STDOUT, magnitude(value));
}

pub fn refusal(refused: u32, place: u32) {
    words(b" refused");
    number(refused as u64);
    number(place as u64);
}

// What an operation refuses, by its number.
pub fn refused(own: Refusal) {
    refusal(own.fault.number(), own.place);
}

// The energy figure of a plan that the check accepts.
pub fn accepted(energy: u64) {
    words(b" accepted");
    number(energy);
}

// What the check answers: the energy figure, or the refusal.
pub fn checked(answer: Result<u64, Refusal>) {
    match answer {
        Ok(energy) => accepted(energy),
        Err(own) => refused(own),
    }
}

// Whether the lent buffers, past what was written, are as they were.
pub fn rest(kept: bool) {
    if kept {
        words(b" rest kept");
    } else {
        words(b" rest changed");
    }
}

pub fn end() {
    words(b"\n");
}
