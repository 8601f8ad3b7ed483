// Printing what a call answers, and whether the lists are kept.
ghost use Rattle.std.specs.Prelude.{◌≤◌, length};

use test_support::buffers::numbers_kept;
use test_support::show;

// How long a part of each list is.
#[derive(Clone, Copy)]
pub struct Lengths {
    pub open_jobs: usize,
    pub inside_jobs: usize,
    pub steps: usize,
}

// The name of the site, and that of the call at a place.
pub(crate) fn names(line: &[u8], place: usize)
    requires { place ≤ length line.now }
{
    show::words_to(line, 0);
    show::words(b" ");
    show::words_to(&line[place..], 0);
}

pub(crate) fn deadline(nearest: Option<u32>) {
    show::words(b" deadline");
    match nearest {
        Some(deadline) => show::number(deadline as u64),
        None => show::words(b" none"),
    }
}

// Whether each list past what was written is as it was.
pub(crate) fn rest(open_jobs: &[u32], inside_jobs: &[u32], steps: &[u32], written: Lengths) {
    let open_kept = numbers_kept(open_jobs, written.open_jobs);
    let inside_kept = numbers_kept(inside_jobs, written.inside_jobs);
    let steps_kept = numbers_kept(steps, written.steps);
    show::rest(open_kept & inside_kept & steps_kept);
}
