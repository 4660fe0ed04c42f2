// The table of 1 to 16 bytes: nine lines, each a head over the first three bytes, cells over the others, and an end.
use crate::facts::{Facts, facts_of};
use crate::heads::put_head;
use std::fmt::Write;
use text::Page;

// The lines of the table: the bytes in hex and their bits, the names of the fields, their values in hex, and in decimal or by name, with
// borders around and between. (Every line is a head, cells and an end, each of which is told by a match on the line. A function for each
// line in their place would put the three together eight times.)
#[derive(Clone, Copy)]
pub(crate) enum Line {
    Top,
    Bytes,
    Bits,
    Split,
    Names,
    Border,
    Hex,
    Values,
}

// The bit of a byte that has a weight, as a digit.
fn bit(b: u8, weight: u8) -> u8 {
    u8::from(b & weight != 0)
}

// Appends the bits of a byte.
fn put_bits(page: &mut Page, b: u8) {
    let _ = write!(
        page,
        "|{} {} {} {} {} {} {} {}",
        bit(b, 128),
        bit(b, 64),
        bit(b, 32),
        bit(b, 16),
        bit(b, 8),
        bit(b, 4),
        bit(b, 2),
        bit(b, 1)
    );
}

// Appends a byte in hex between other words.
fn put_hex(page: &mut Page, before: &[u8], b: u8, behind: &[u8]) {
    page.put(before);
    page.put_hex(b);
    page.put(behind);
}

// Appends the cell of a line over a byte: a border, the byte, its bits, the name of a payload byte, its value in hex, in decimal.
fn put_cell(page: &mut Page, line: Line, b: u8) {
    match line {
        Line::Top | Line::Split | Line::Border => page.put(b"---------------+"),
        Line::Bytes => put_hex(page, b"|      ", b, b"       "),
        Line::Bits => put_bits(page, b),
        Line::Names => page.put(b"    payload    |"),
        Line::Hex => put_hex(page, b"     0x", b, b"      |"),
        Line::Values => {
            let _ = write!(page, "    {b:>5}      |");
        }
    }
}

// The bytes that a line has cells over: all, or those between the first three and the last.
fn celled(line: Line, s: &[u8]) -> &[u8] {
    match line {
        Line::Top | Line::Bytes | Line::Bits => s,
        _ => text::part(s, 3, s.len().saturating_sub(1)),
    }
}

// Appends the checksum in hex, and the right one where it is another.
fn put_hex_checksum(page: &mut Page, f: Facts) {
    let _ = if f.received == f.computed {
        write!(page, "   0x{:02X} (ok)   |", f.received)
    } else {
        write!(page, "  0x{:02X} want {:02X} |", f.received, f.computed)
    };
}

// The same in decimal.
fn put_checksum(page: &mut Page, f: Facts) {
    let _ = if f.received == f.computed {
        write!(page, "  {:>5} (ok)   |", f.received)
    } else {
        write!(page, "{:>5} want {:<4}|", f.received, f.computed)
    };
}

// Appends the end of a line: that of the bytes, or the column of the checksum, where there is one.
fn put_end(page: &mut Page, line: Line, f: Facts) {
    match line {
        Line::Top => {}
        Line::Bytes | Line::Bits => page.put_byte(b'|'),
        _ if f.count < 4 => {}
        Line::Split | Line::Border => page.put(b"---------------+"),
        Line::Names => page.put(b"      crc      |"),
        Line::Hex => put_hex_checksum(page, f),
        Line::Values => put_checksum(page, f),
    }
    page.put_byte(b'\n');
}

fn put_line(page: &mut Page, line: Line, s: &[u8]) {
    let f = facts_of(s);
    put_head(page, line, f);
    for b in celled(line, s) {
        put_cell(page, line, *b);
    }
    put_end(page, line, f);
}

// Appends the whole table.
pub(crate) fn put_table(page: &mut Page, s: &[u8]) {
    let lines = [
        Line::Top,
        Line::Bytes,
        Line::Bits,
        Line::Split,
        Line::Names,
        Line::Border,
        Line::Hex,
        Line::Values,
        Line::Border,
    ];
    for line in &lines {
        put_line(page, *line, s);
    }
}
