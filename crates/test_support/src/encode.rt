// Tables in bytes: the count as 16 bits, then numbers of one width, the lowest byte first.
ghost use Rattle.std.specs.Prelude.{◌≤◌, length};
ghost use Rattle.io.specs.Counts.{IsPrefixLen};

use crate::text::{digit, next, number};

// Room for the longest table that the cases make, a plan of 170 steps. It is lent as a slice to the function that fills
// it and has it read: a slice keeps its length over a call, and a local array is not known to.
pub const ROOM: usize = 1024;

// How many bytes a table has, and where its numbers end in the text.
#[derive(Clone, Copy)]
pub struct Encoded {
    pub length: usize,
    pub end: usize,
}

// Puts the numbers that stand in a line after the word at a place, up to the next word: the count, which need not be that
// of the numbers, and the numbers after it. What has no room is left out.
pub fn encode(bytes: &mut [u8], width: usize, line: &[u8], place: usize) -> Encoded
    requires { place ≤ length line.now }
    ensures { IsPrefixLen result.length bytes.new × (place ≤ result.end) × (result.end ≤ length line.now) }
{
    let mut wide = 2;
    let mut filled = 0;
    let mut at = next(line, place);
    while at < line.len() {
        if digit(line[at]) > 9 {
            break;
        }
        filled = put(bytes, filled, wide, number(line, at));
        wide = width;
        at = next(line, at);
    }
    Encoded {
        length: filled,
        end: at,
    }
}

// Puts the mark table whose numbers stand in a line after the word marks at a place, or one without marks where that word does
// not stand there.
pub fn encode_marks(bytes: &mut [u8], line: &[u8], place: usize) -> Encoded
    requires { place ≤ length line.now }
    ensures { IsPrefixLen result.length bytes.new × (result.end ≤ length line.now) }
{
    if has_marks(line, place) {
        return encode(bytes, 4, line, place);
    }
    Encoded {
        length: put(bytes, 0, 2, 0),
        end: place,
    }
}

// Whether the word at a place is marks. No other word that stands after a job table begins as it does.
fn has_marks(line: &[u8], place: usize) -> bool {
    if place < line.len() {
        line[place] == b'm'
    } else {
        false
    }
}

// How many bytes each of a site's tables has, and where their numbers end in the text.
#[derive(Clone, Copy)]
pub struct SiteLengths {
    pub levels: usize,
    pub jobs: usize,
    pub marks: usize,
    pub end: usize,
}

// Puts the tables of a site. From a place of the line on stand, after a word each, the numbers of a level table, a job table
// and a mark table, which may be left out.
pub fn encode_site(
    levels: &mut [u8],
    jobs: &mut [u8],
    marks: &mut [u8],
    line: &[u8],
    place: usize,
) -> SiteLengths
    requires { place ≤ length line.now }
    ensures prefix_len { IsPrefixLen result.levels levels.new × IsPrefixLen result.jobs jobs.new }
    ensures prefix_len_2 { IsPrefixLen result.marks marks.new × (result.end ≤ length line.now) }
{
    let level_table = encode(levels, 2, line, place);
    let job_table = encode(jobs, 4, line, level_table.end);
    let mark_table = encode_marks(marks, line, job_table.end);
    SiteLengths {
        levels: level_table.length,
        jobs: job_table.length,
        marks: mark_table.length,
        end: mark_table.end,
    }
}

// How many bytes each of the tables has that a plan is checked with, and where their numbers end in the text.
#[derive(Clone, Copy)]
pub struct TableLengths {
    pub levels: usize,
    pub jobs: usize,
    pub marks: usize,
    pub plan: usize,
    pub prices: usize,
    pub end: usize,
}

// Puts the tables that a plan is checked with. At a place of the line stand the lengths of the plan and of the price list,
// which need not be those of their numbers, and then the tables of a site and, after a word each, the numbers of a plan and a
// price list.
pub fn encode_tables(
    levels: &mut [u8],
    jobs: &mut [u8],
    marks: &mut [u8],
    plan: &mut [u8],
    prices: &mut [u8],
    line: &[u8],
    place: usize,
) -> TableLengths
    requires { place ≤ length line.now }
    ensures prefix_len { IsPrefixLen result.levels levels.new × IsPrefixLen result.jobs jobs.new }
    ensures prefix_len_2 { IsPrefixLen result.marks marks.new × (result.end ≤ length line.now) }
    ensures prefix_len_3 { IsPrefixLen result.plan plan.new × IsPrefixLen result.prices prices.new }
{
    let second = next(line, place);
    let site = encode_site(levels, jobs, marks, line, next(line, second));
    let plan_table = encode(plan, 2, line, site.end);
    let price_list = encode(prices, 1, line, plan_table.end);
    TableLengths {
        levels: site.levels,
        jobs: site.jobs,
        marks: site.marks,
        plan: io::count(number(line, place) as isize, plan),
        prices: io::count(number(line, second) as isize, prices),
        end: price_list.end,
    }
}

// Puts a number at a place in so many bytes, and answers the place after them.
pub fn put(bytes: &mut [u8], place: usize, width: usize, number: u32) -> usize
    requires { place ≤ length bytes.old }
    ensures { result ≤ length bytes.new }
{
    let mut at = place;
    let mut rest = number;
    for _ in 0..width {
        if at < bytes.len() {
            bytes[at] = (rest % 256) as u8;
            at += 1;
        }
        rest /= 256;
    }
    at
}
