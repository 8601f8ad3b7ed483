// A line for each case: what was asked, and what was answered.
use parameters::as_given;

// The descriptor of the standard output.
const STDOUT: i32 = 1;

// The name, the length and the load; then the band, the extra and the gap, or the refusal's number and place.
pub(crate) fn setting(name: &[u8], table: &[u8], length: u32, load: u64) {
    start(b"setting ", name);
    number(length as u64);
    number(load);
    let given = as_given(table);
    match settings::setting(table, given.highest, length, load) {
        Ok(set) => {
            io::write_all(STDOUT, b" set");
            number(set.band as u64);
            number(set.extra);
            number(set.gap);
        }
        Err(own) => {
            io::write_all(STDOUT, b" refused");
            number(own.fault.number() as u64);
            number(own.place as u64);
        }
    }
    end();
}

// The name and the frequencies of the working levels, upward.
pub(crate) fn working(name: &[u8], table: &[u8]) {
    start(b"working ", name);
    let given = as_given(table);
    let points = levels::read_working_levels(table, given.highest);
    for &frequency in points.frequencies.iter().take(points.count).skip(1) {
        number(frequency);
    }
    end();
}

fn start(kind: &[u8], name: &[u8]) {
    io::write_all(STDOUT, kind);
    io::write_all(STDOUT, name);
}

fn number(n: u64) {
    io::write_all(STDOUT, b" ");
    io::print_decimal(STDOUT, n);
}

fn end() {
    io::write_all(STDOUT, b"\n");
}
