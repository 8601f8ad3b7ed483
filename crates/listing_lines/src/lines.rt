// The lines of a listing, each with its word.
ghost use Rattle.std.specs.Prelude.{◌+◌, ◌-◌, ◌<◌, ◌≤◌, [], ◌∷◌};
ghost use Rattle.model.specs.Limits.{max_deadline};
ghost use Rattle.model.specs.Entries.{encode_each};
ghost use Rattle.model.specs.Bands.{Curve};
ghost use Rattle.levels.specs.PointTables.{points_of, SmallPoints};
ghost use Rattle.settings.specs.Settings.{Fits};
ghost use Rattle.writing.specs.StepList.{step_of};
ghost use Rattle.listing_lines.specs.TextLines.{line, sizes_word, energy_word, overfull_line, refused_line};
ghost use Rattle.listing_lines.specs.PlanText.{span_line, step_line};
ghost use Rattle.listing_lines.specs.Appending.{text_room, sizes_room, span_room, step_room, energy_room, Appended};

use crate::writer::{put_byte, put_bytes, put_line, put_numbers, put_signed};
use levels::PointTable;
use settings::setting_of;

const SIZES: [u8; 5] = *b"sizes";

const SPAN: [u8; 4] = *b"span";

const STEP: [u8; 4] = *b"step";

const ENERGY: [u8; 6] = *b"energy";

const OVERFULL: [u8; 8] = *b"overfull";

const REFUSED: [u8; 7] = *b"refused";

// sizes: jobs, intervals, steps.
pub fn put_sizes(text: &mut [u8], place: usize, jobs: usize, intervals: usize, steps: u32) -> usize
    requires { place + sizes_room ≤ text_room }
    ensures { Appended text.old place (line sizes_word (jobs ∷ intervals ∷ steps ∷ [])) sizes_room text.new result }
{
    put_line(
        text,
        place,
        &SIZES,
        &[jobs as u64, intervals as u64, steps as u64],
    )
}

// span: from, to, load, then band, extra and gap as the setting of one interval answers them, price.
pub fn put_span(
    working: PointTable,
    from: u64,
    to: u64,
    load: u64,
    price: u8,
    text: &mut [u8],
    place: usize,
) -> usize
    requires from_lt_to { (from < to) × (to ≤ max_deadline) × (place + span_room ≤ text_room) }
    requires small_points { SmallPoints working × Curve (points_of working) × Fits (points_of working) (to - from) load }
    ensures { Appended text.old place (span_line (points_of working) from to load price) span_room text.new result }
{
    let set = setting_of(working, to - from, load);
    put_line(
        text,
        place,
        &SPAN,
        &[
            from,
            to,
            load,
            set.band as u64,
            set.extra,
            set.gap,
            price as u64,
        ],
    )
}

// step: interval, job, cycles. A share of 0 has no step.
pub fn put_step(interval: usize, job: usize, share: u32, text: &mut [u8], place: usize) -> usize
    requires { place + step_room ≤ text_room }
    ensures { Appended text.old place (encode_each step_line (step_of interval job share)) step_room text.new result }
{
    if share > 0 {
        return put_line(
            text,
            place,
            &STEP,
            &[interval as u64, job as u64, share as u64],
        );
    }
    place
}

// energy: the figure.
pub fn put_energy(text: &mut [u8], place: usize, energy: u64) -> usize
    requires { place + energy_room ≤ text_room }
    ensures { Appended text.old place (line energy_word (energy ∷ [])) energy_room text.new result }
{
    put_line(text, place, &ENERGY, &[energy])
}

// overfull: start, end, spare.
pub fn put_overfull(text: &mut [u8], start: u32, end: u32, spare: i64) -> usize
    ensures { Appended text.old 0 (overfull_line start end spare) text_room text.new result }
{
    let first = put_bytes(text, 0, &OVERFULL);
    let second = put_numbers(text, first, &[start as u64, end as u64]);
    let last = put_signed(text, second, spare);
    put_byte(text, last, b'\n')
}

// refused: number, place.
pub fn put_refused(text: &mut [u8], number: u32, place: u32) -> usize
    ensures { Appended text.old 0 (refused_line number place) text_room text.new result }
{
    put_line(text, 0, &REFUSED, &[number as u64, place as u64])
}
