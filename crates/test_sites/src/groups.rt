// Groups of small sites with a fixed seed, each compared with the search; first sites without marks, then sites with marks.
ghost use Rattle.std.specs.Prelude.{◌≤◌};

use crate::compare::compare;
use crate::effects;
use std::num::wrapping_add_u64;
use test_forms::forms::{Form, jobs_of, levels_of};
use test_forms::marks::{Marking, marks_of};
use test_support::show;

// How many sites a group has.
pub(crate) const SITES: u64 = 80;

// What a group's sites come to.
#[derive(Clone, Copy)]
struct Tally {
    planned: u64,
    agreeing: u64,
    energy: u64,
}

pub(crate) fn all() {
    let mut state = 2005;
    without_marks(&mut state);
    with_marks(&mut state);
}

fn without_marks(state: &mut u32) {
    without_draw(state);
    with_draw(state);
}

fn without_draw(state: &mut u32) {
    group(b"no_jobs", Form::Any(0), state);
    group(b"one_job", Form::Any(1), state);
    group(b"two_jobs", Form::Any(2), state);
    group(b"three_jobs", Form::Any(3), state);
    group(b"four_jobs", Form::Any(4), state);
    group(b"nested", Form::Nested, state);
    group(b"equal", Form::Equal, state);
    group(b"tight", Form::Tight, state);
    group(b"dropped", Form::Dropped, state);
}

fn with_draw(state: &mut u32) {
    group(b"idle_draw_no_jobs", Form::IdleDraw(0), state);
    group(b"idle_draw_one_job", Form::IdleDraw(1), state);
    group(b"idle_draw_two_jobs", Form::IdleDraw(2), state);
    group(b"idle_draw_three_jobs", Form::IdleDraw(3), state);
    group(b"idle_draw_restored", Form::Restored, state);
}

fn with_marks(state: &mut u32) {
    marks_of_any(state);
    marks_of_forms(state);
}

fn marks_of_any(state: &mut u32) {
    marked_group(b"marks_no_jobs", Form::Any(0), Marking::Anywhere, state);
    marked_group(b"marks_one_job", Form::Any(1), Marking::Anywhere, state);
    marked_group(b"marks_two_jobs", Form::Any(2), Marking::Anywhere, state);
    marked_group(b"marks_three_jobs", Form::Any(3), Marking::Anywhere, state);
    marked_group(b"marks_four_jobs", Form::Any(4), Marking::Anywhere, state);
    marked_group(b"marks_near_one_job", Form::Any(1), Marking::Near, state);
    marked_group(b"marks_near_two_jobs", Form::Any(2), Marking::Near, state);
    marked_group(b"marks_near_three_jobs", Form::Any(3), Marking::Near, state);
}

fn marks_of_forms(state: &mut u32) {
    marked_group(b"marks_near_nested", Form::Nested, Marking::Near, state);
    marked_group(b"marks_equal", Form::Equal, Marking::Anywhere, state);
    marked_group(b"marks_near_tight", Form::Tight, Marking::Near, state);
    marked_group(b"marks_dropped", Form::Dropped, Marking::Anywhere, state);
    marked_group(
        b"marks_idle_draw_two_jobs",
        Form::IdleDraw(2),
        Marking::Anywhere,
        state,
    );
    marked_group(
        b"marks_near_idle_draw_three_jobs",
        Form::IdleDraw(3),
        Marking::Near,
        state,
    );
    marked_group(
        b"marks_idle_draw_restored",
        Form::Restored,
        Marking::Anywhere,
        state,
    );
}

fn group(name: &[u8], form: Form, state: &mut u32) {
    print(name, tally_of(form, Marking::None, state));
}

// Prints a second line on what the marks do to the sites, which are drawn anew from the same state.
fn marked_group(name: &[u8], form: Form, marking: Marking, state: &mut u32) {
    let mut again = *state;
    print(name, tally_of(form, marking, state));
    effects::print(name, form, marking, &mut again);
}

fn print(name: &[u8], tally: Tally) {
    show::words(name);
    show::words(b" sites");
    show::number(SITES);
    show::words(b" planned");
    show::number(tally.planned);
    show::words(b" agreeing");
    show::number(tally.agreeing);
    show::words(b" energy");
    show::number(tally.energy);
    show::end();
}

fn tally_of(form: Form, marking: Marking, state: &mut u32) -> Tally {
    let mut planned = 0;
    let mut agreeing = 0;
    let mut energy = 0;
    for _ in 0..SITES {
        let levels = levels_of(form, state);
        let jobs = jobs_of(form, levels, state);
        let marks = marks_of(marking, jobs, state);
        let outcome = compare(levels, jobs, marks);
        planned += one_if(outcome.planned);
        agreeing += one_if(outcome.agrees);
        energy = wrapping_add_u64(energy, outcome.energy);
    }
    Tally {
        planned,
        agreeing,
        energy,
    }
}

pub(crate) fn one_if(holds: bool) -> u64
    ensures { result ≤ 1 }
{
    if holds { 1 } else { 0 }
}
