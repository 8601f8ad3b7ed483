// Settings at the ends of the bands and past the limits, and the working levels of tables in which levels are dropped; the
// same for tables with an idle entry.
// A level table in bytes: the count, the frequencies and the voltages, 16 bits each, the lower byte first.
#![tactic(auto)]

ghost use Rattle.std.specs.Prelude.{◌≤◌};

mod idle;
mod show;

fn main() {
    pair_ends();
    built_in_ends();
    limits();
    refused();
    working_levels();
    idle::tables();
}

// Levels 2 at 10 and 4 at 20.
fn pair(length: u32, load: u64) {
    show::setting(
        b"pair",
        b"\x02\x00\x02\x00\x04\x00\x0a\x00\x14\x00",
        length,
        load,
    );
}

// The first built-in table: 300 90, 400 100, 533 110, 667 120, 800 130.
fn built_in(length: u32, load: u64) {
    show::setting(
        b"built_in",
        b"\x05\x00\x2c\x01\x90\x01\x15\x02\x9b\x02\x20\x03\x5a\x00\x64\x00\x6e\x00\x78\x00\x82\x00",
        length,
        load,
    );
}

// One less, the load itself, and one more.
fn pair_around(length: u32, load: u64)
    requires { (1 ≤ load) × (load ≤ 1000000000) }
{
    pair(length, load - 1);
    pair(length, load);
    pair(length, load + 1);
}

fn built_in_around(length: u32, load: u64)
    requires { (1 ≤ load) × (load ≤ 1000000000) }
{
    built_in(length, load - 1);
    built_in(length, load);
    built_in(length, load + 1);
}

// Around length × frequency for each level, and load 0.
fn pair_ends() {
    pair(1, 0);
    pair_around(1, 2);
    pair_around(1, 4);
    pair(3, 0);
    pair_around(3, 6);
    pair_around(3, 12);
    pair(1_000_000, 0);
    pair_around(1_000_000, 2_000_000);
    pair_around(1_000_000, 4_000_000);
}

fn built_in_ends() {
    built_in(1, 0);
    built_in_around(1, 300);
    built_in_around(1, 400);
    built_in_around(1, 533);
    built_in_around(1, 667);
    built_in_around(1, 800);
    built_in(1_000_000, 0);
    built_in_around(1_000_000, 300_000_000);
    built_in_around(1_000_000, 400_000_000);
    built_in_around(1_000_000, 533_000_000);
    built_in_around(1_000_000, 667_000_000);
    built_in_around(1_000_000, 800_000_000);
}

// Lengths past the limits, at loads that would be refused too, and the largest load.
fn limits() {
    pair(0, 0);
    pair(0, 1);
    pair(0, 18_446_744_073_709_551_615);
    pair(1_000_001, 1);
    pair(1_000_001, 4_000_005);
    pair(4_294_967_295, 0);
    pair(4_294_967_295, 18_446_744_073_709_551_615);
    pair(1, 18_446_744_073_709_551_615);
    pair(1_000_000, 18_446_744_073_709_551_615);
    built_in(1_000_000, 18_446_744_073_709_551_615);
}

// Refused level tables, at lengths and loads that would be refused too.
fn refused() {
    show::setting(b"empty", b"", 0, 0);
    show::setting(b"no_levels", b"\x00\x00", 1, 1);
    show::setting(b"nine_levels", b"\x09\x00", 1, 1);
    show::setting(b"byte_left", b"\x01\x00\x02\x00\x0a\x00\x00", 1, 9);
    show::setting(
        b"frequency_falls",
        b"\x02\x00\x04\x00\x02\x00\x0a\x00\x14\x00",
        0,
        9,
    );
    show::setting(
        b"voltage_falls",
        b"\x02\x00\x02\x00\x04\x00\x14\x00\x0a\x00",
        1_000_001,
        9,
    );
}

fn working_levels() {
    show::working(b"pair", b"\x02\x00\x02\x00\x04\x00\x0a\x00\x14\x00");
    show::working(
        b"first_built_in",
        b"\x05\x00\x2c\x01\x90\x01\x15\x02\x9b\x02\x20\x03\x5a\x00\x64\x00\x6e\x00\x78\x00\x82\x00",
    );
    show::working(
        b"second_built_in",
        b"\x05\x00\x2c\x01\x5e\x01\x90\x01\xc2\x01\xf4\x01\x8c\x00\x96\x00\xa0\x00\xaa\x00\xb4\x00",
    );
    // 100 10, 200 10: the first lies on the line from idling to the second
    show::working(
        b"equal_to_idling",
        b"\x02\x00\x64\x00\xc8\x00\x0a\x00\x0a\x00",
    );
    // 1 1, 2 4, 5 5, powers 1, 32, 125: the second lies on the line between the others
    show::working(
        b"equal",
        b"\x03\x00\x01\x00\x02\x00\x05\x00\x01\x00\x04\x00\x05\x00",
    );
    // 1 1, 2 4, 5 6: the second lies below it
    show::working(
        b"below",
        b"\x03\x00\x01\x00\x02\x00\x05\x00\x01\x00\x04\x00\x06\x00",
    );
    // 100 10, 110 20, 300 21
    show::working(
        b"middle",
        b"\x03\x00\x64\x00\x6e\x00\x2c\x01\x0a\x00\x14\x00\x15\x00",
    );
    // 100 10, 200 16, 300 17, 400 18, 500 18: 300 is dropped by 100 and 500 alone, and not by a neighbour
    show::working(
        b"far",
        b"\x05\x00\x64\x00\xc8\x00\x2c\x01\x90\x01\xf4\x01\x0a\x00\x10\x00\x11\x00\x12\x00\x12\x00",
    );
    // 100, 200, .. , 800, all at 50
    show::working(
        b"top_alone",
        b"\x08\x00\x64\x00\xc8\x00\x2c\x01\x90\x01\xf4\x01\x58\x02\xbc\x02\x20\x03\x32\x00\x32\x00\x32\x00\x32\x00\x32\x00\x32\x00\x32\x00\x32\x00",
    );
    show::working(b"refused", b"\x02\x00\x04\x00\x02\x00\x0a\x00\x14\x00");
}
