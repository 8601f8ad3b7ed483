// Printing what an operation wrote: plans, price lists, lists of numbers and working frequencies.
use crate::buffers::within_numbers;
use crate::show::{number, words};

// The numbers of a plan, as those of a plan in a case's line.
pub fn plan(bytes: &[u8]) {
    words(b" plan");
    for bits in bytes.chunks_exact(2) {
        half(bits[0], bits[1]);
    }
}

fn half(low: u8, high: u8) {
    number(low as u64 + 256 * high as u64);
}

// The prices stand at the end of a price list.
pub fn prices(list: &[u8], start: usize) {
    words(b" prices");
    for &band in list.iter().skip(start) {
        price(band);
    }
}

fn price(band: u8) {
    number(band as u64);
}

// The length of a list that was written, and its members.
pub fn list(word: &[u8], numbers: &[u32], length: u32) {
    words(word);
    number(length as u64);
    let written = within_numbers(length as usize, numbers);
    members(&numbers[..written]);
}

fn members(numbers: &[u32]) {
    for &value in numbers {
        member(value);
    }
}

fn member(value: u32) {
    number(value as u64);
}

// The frequencies of so many working points, upward and without the first, which is that of idling. Only a level table that is
// refused has no points.
pub fn working(frequencies: &[u64], count: usize) {
    if count == 0 {
        words(b" not read");
        return;
    }
    words(b" working");
    for &frequency in frequencies.iter().take(count).skip(1) {
        number(frequency);
    }
}
