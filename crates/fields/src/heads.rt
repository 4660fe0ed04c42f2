// The heads of the table's lines, over the first three bytes.
use crate::facts::Facts;
use crate::grid::Line;
use std::fmt::Write;
use table::Cast;
use telegram::Address;
use text::Page;

// Appends the head of a line, which depends on how many of the three bytes are there.
pub(crate) fn put_head(page: &mut Page, line: Line, f: Facts) {
    match line {
        Line::Top => page.put_byte(b'+'),
        Line::Bytes | Line::Bits => {}
        Line::Split => put_one_of(page, f, SPLIT),
        Line::Names => put_one_of(page, f, NAMES),
        Line::Border => put_one_of(page, f, BORDER),
        Line::Hex => put_hex(page, f),
        Line::Values => put_values(page, f),
    }
}

// The head of a border between the bits and the names: of one byte, of two, of three and more.
const SPLIT: [&str; 3] = [
    "+-------+-------+",
    "+-------+-------+-----------+---+",
    "+-------+-------+-----------+---+-+-------------+",
];

// The names of the fields.
const NAMES: [&str; 3] = [
    "|preambl|address|",
    "|preambl|      address      |psi|",
    "|preambl|      address      | psi |   command   |",
];

// The head of any other border.
const BORDER: [&str; 3] = [
    "+-------+-------+",
    "+-------+-------------------+---+",
    "+-------+-------------------+-----+-------------+",
];

// Appends the one of three heads that a count of bytes has.
fn put_one_of(page: &mut Page, f: Facts, heads: [&'static str; 3]) {
    let [one, two, three] = heads;
    let head = match f.count {
        1 => one,
        2 => two,
        _ => three,
    };
    page.put(head.as_bytes());
}

// Appends the fields in hex. An acknowledged command's has SR behind the number.
fn put_hex(page: &mut Page, f: Facts) {
    let _ = write!(page, "|  0x{:X}  |", f.preamble);
    let _ = match f.count {
        1 => write!(page, "   ?   |"),
        2 => write!(page, "       0x{:03X}       | ? |", f.address),
        _ if f.plain == f.number => write!(
            page,
            "       0x{:03X}       | 0x{:X} |    0x{:02X}     |",
            f.address, f.index, f.number
        ),
        _ => write!(
            page,
            "       0x{:03X}       | 0x{:X} |   0x{:02X} SR   |",
            f.address, f.index, f.number
        ),
    };
}

// Appends the fields in decimal or by name, the destination and the command in the middle of their columns.
fn put_values(page: &mut Page, f: Facts) {
    page.put(b"|   -   |");
    if f.count == 1 {
        page.put(b"   ?   |");
        return;
    }
    put_destination(page, f.address);
    if f.count == 2 {
        page.put(b"| ? |");
        return;
    }
    let _ = write!(
        page,
        "|  {}  |{:^13}|",
        f.index,
        words::command_name(f.plain)
    );
}

// Appends what an address of 10 bits stands for: of these only 3FF is no destination.
fn put_destination(page: &mut Page, address: u16) {
    let mut room = [0u8; 16];
    let mut word = Page::over(&mut room);
    let _ = match table::destination_of(Address(address)) {
        Some(Cast::Everyone) => write!(word, "broadcast"),
        Some(Cast::One(a)) => write!(word, "unicast({})", a.0),
        Some(Cast::Group(g)) => write!(word, "group({g})"),
        None => write!(word, "no address"),
    };
    let start = page.used;
    page.put_times(b' ', 19usize.saturating_sub(word.used) / 2);
    page.put(word.written());
    page.put_spaces(start, 19);
}
