// What is asked of a level table and the highest running level alone: the setting of one interval, and the working levels.
use test_support::text::MAX_NUMBERS;
use test_support::{show, written};

// The numbers are the highest level, the length and the load.
pub(crate) fn setting(levels: &[u8], values: [u32; MAX_NUMBERS]) {
    print(levels, values[0], values[1], values[2]);
}

fn print(levels: &[u8], highest: u32, length: u32, load: u32) {
    match settings::setting(levels, highest, length, load as u64) {
        Ok(set) => {
            show::words(b" set");
            show::number(set.band as u64);
            show::number(set.extra);
            show::number(set.gap);
        }
        Err(own) => show::refused(own),
    }
}

// The number is the highest level.
pub(crate) fn working(levels: &[u8], values: [u32; MAX_NUMBERS]) {
    let points = levels::read_working_levels(levels, values[0]);
    let frequencies = points.frequencies;
    written::working(&frequencies, points.count);
}
