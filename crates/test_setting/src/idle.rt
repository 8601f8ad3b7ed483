// Level tables with an idle entry, frequency 0 and the draw: their working levels, and settings at the ends of the bands.
use crate::show;

pub(crate) fn tables() {
    equal_pair();
    built_in();
    dropped();
    refused();
}

// 100 10, 200 10: without a draw the first lies on the line from idling to the second, and with one it lies below.
fn equal_pair() {
    pair_ends(
        b"draw_0",
        b"\x03\x00\x00\x00\x64\x00\xc8\x00\x00\x00\x0a\x00\x0a\x00",
    );
    pair_ends(
        b"draw_1",
        b"\x03\x00\x00\x00\x64\x00\xc8\x00\x01\x00\x0a\x00\x0a\x00",
    );
    pair_ends(
        b"draw_9",
        b"\x03\x00\x00\x00\x64\x00\xc8\x00\x09\x00\x0a\x00\x0a\x00",
    );
}

fn pair_ends(name: &[u8], table: &[u8]) {
    show::working(name, table);
    show::setting(name, table, 1, 0);
    show::setting(name, table, 1, 1);
    show::setting(name, table, 1, 99);
    show::setting(name, table, 1, 100);
    show::setting(name, table, 1, 101);
    show::setting(name, table, 1, 200);
    show::setting(name, table, 1, 201);
    show::setting(name, table, 2, 150);
    show::setting(name, table, 1_000_000, 100_000_000);
    show::setting(name, table, 1_000_000, 100_000_001);
    show::setting(name, table, 1_000_000, 200_000_000);
    show::setting(name, table, 1_000_000, 200_000_001);
}

// The built-in tables with a draw just below the power of the first level, and the largest draw.
fn built_in() {
    first_ends(
        b"first_draw_2429",
        b"\x06\x00\x00\x00\x2c\x01\x90\x01\x15\x02\x9b\x02\x20\x03\x7d\x09\x5a\x00\x64\x00\x6e\x00\x78\x00\x82\x00",
    );
    show::working(
        b"second_draw_5879",
        b"\x06\x00\x00\x00\x2c\x01\x5e\x01\x90\x01\xc2\x01\xf4\x01\xf7\x16\x8c\x00\x96\x00\xa0\x00\xaa\x00\xb4\x00",
    );
    show::working(b"draw_65535", b"\x02\x00\x00\x00\xe8\x03\xff\xff\xf4\x01");
}

fn first_ends(name: &[u8], table: &[u8]) {
    show::working(name, table);
    show::setting(name, table, 1, 0);
    show::setting(name, table, 1, 300);
    show::setting(name, table, 1, 301);
    show::setting(name, table, 1, 400);
    show::setting(name, table, 1, 401);
    show::setting(name, table, 1, 800);
    show::setting(name, table, 1, 801);
}

fn dropped() {
    // 100 10, 110 20, 300 21: the second is dropped by the others, whatever idling draws
    show::working(
        b"middle_draw_9",
        b"\x04\x00\x00\x00\x64\x00\x6e\x00\x2c\x01\x09\x00\x0a\x00\x14\x00\x15\x00",
    );
    // 100 10, 200 16, 300 17, 400 18, 500 18
    show::working(
        b"far_draw_9",
        b"\x06\x00\x00\x00\x64\x00\xc8\x00\x2c\x01\x90\x01\xf4\x01\x09\x00\x0a\x00\x10\x00\x11\x00\x12\x00\x12\x00",
    );
    // 100 10, 150 10, 200 20: a draw brings 100 back
    show::working(
        b"lowest_draw_0",
        b"\x04\x00\x00\x00\x64\x00\x96\x00\xc8\x00\x00\x00\x0a\x00\x0a\x00\x14\x00",
    );
    show::working(
        b"lowest_draw_1",
        b"\x04\x00\x00\x00\x64\x00\x96\x00\xc8\x00\x01\x00\x0a\x00\x0a\x00\x14\x00",
    );
    // 100, 200, .. , 700, all at 50: a draw brings 100 back, and those between lie on the line from it to the top
    show::working(
        b"line_draw_0",
        b"\x08\x00\x00\x00\x64\x00\xc8\x00\x2c\x01\x90\x01\xf4\x01\x58\x02\xbc\x02\x00\x00\x32\x00\x32\x00\x32\x00\x32\x00\x32\x00\x32\x00\x32\x00",
    );
    show::working(
        b"line_draw_1",
        b"\x08\x00\x00\x00\x64\x00\xc8\x00\x2c\x01\x90\x01\xf4\x01\x58\x02\xbc\x02\x01\x00\x32\x00\x32\x00\x32\x00\x32\x00\x32\x00\x32\x00\x32\x00",
    );
}

// Refused level tables, at lengths and loads that would be refused too.
fn refused() {
    show::working(b"idle_alone", b"\x01\x00\x00\x00\x09\x00");
    show::setting(b"idle_alone", b"\x01\x00\x00\x00\x09\x00", 0, 1);
    show::setting(
        b"second_idle",
        b"\x02\x00\x00\x00\x00\x00\x09\x00\x0a\x00",
        0,
        1,
    );
    draw_too_high(
        b"draw_10",
        b"\x03\x00\x00\x00\x64\x00\xc8\x00\x0a\x00\x0a\x00\x0a\x00",
    );
}

fn draw_too_high(name: &[u8], table: &[u8]) {
    show::working(name, table);
    show::setting(name, table, 1, 100);
    show::setting(name, table, 1, 201);
    show::setting(name, table, 1_000_001, 1);
}
