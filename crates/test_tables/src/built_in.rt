// The built-in level tables.
use crate::read::entries;
use model::Level;
use test_support::show;

pub(crate) fn first() {
    print(b"levels first_built_in", level_tables::first_built_in());
}

pub(crate) fn second() {
    print(b"levels second_built_in", level_tables::second_built_in());
}

fn print(words: &[u8], levels: [Level; 5]) {
    show::words(words);
    entries(5);
    for level in &levels {
        show::number(level.frequency);
        show::number(level.voltage);
    }
    show::end();
}
