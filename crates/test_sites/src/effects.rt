// What marks do to the small sites of a group: they cut intervals, and leave the least energy as it is.
use crate::groups::{SITES, one_if};
use test_forms::forms::{Form, jobs_of, levels_of};
use test_forms::marks::{Marking, marks_of};
use test_search::intervals::{Intervals, count_of, intervals_of};
use test_search::search::{energies_of, least_energy};
use test_search::table::{JobColumns, LevelColumns, MarkColumn, no_marks};
use test_support::show;

// Whether marks cut an interval of a site, and whether the search finds the same least energy without them.
#[derive(Clone, Copy)]
struct Effect {
    cut: bool,
    same: bool,
}

// For how many sites of a group that holds.
#[derive(Clone, Copy)]
struct Effects {
    cut: u64,
    same: u64,
}

pub(crate) fn print(name: &[u8], form: Form, marking: Marking, state: &mut u32) {
    let effects = effects_of(form, marking, state);
    show::words(name);
    show::words(b" cut");
    show::number(effects.cut);
    show::words(b" least as without marks");
    show::number(effects.same);
    show::end();
}

fn effects_of(form: Form, marking: Marking, state: &mut u32) -> Effects {
    let mut cut = 0;
    let mut same = 0;
    for _ in 0..SITES {
        let levels = levels_of(form, state);
        let jobs = jobs_of(form, levels, state);
        let marks = marks_of(marking, jobs, state);
        let effect = effect_of(levels, jobs, marks);
        cut += one_if(effect.cut);
        same += one_if(effect.same);
    }
    Effects { cut, same }
}

fn effect_of(levels: LevelColumns, jobs: JobColumns, marks: MarkColumn) -> Effect {
    let marked = intervals_of(jobs, marks);
    let whole = intervals_of(jobs, no_marks());
    Effect {
        cut: count_of(marked) > count_of(whole),
        same: least_of(levels, jobs, marked) == least_of(levels, jobs, whole),
    }
}

// The least energy that the search finds over the intervals.
fn least_of(levels: LevelColumns, jobs: JobColumns, intervals: Intervals) -> u64 {
    let energies = energies_of(levels, intervals);
    least_energy(jobs, intervals, &energies)
}
