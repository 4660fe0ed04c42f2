// Lists: the flags of a status byte, the groups of a group word.
ghost use Rattle.std.specs.Iterator.{IsFinite};

use text::{Page, from};

// The bits of a status byte that are flags, the highest first, and their names, behind what separates them.
const FLAGS: [(u8, &[u8]); 5] = [
    (5, b" OTPCRC"),
    (3, b" CE"),
    (2, b" LOS"),
    (1, b" OT"),
    (0, b" UV"),
];

// The same as strings of an array.
const STRINGS: [(u8, &[u8]); 5] = [
    (5, b",\"OTPCRC\""),
    (3, b",\"CE\""),
    (2, b",\"LOS\""),
    (1, b",\"OT\""),
    (0, b",\"UV\""),
];

// Appends each item whose bit is set in a word, or other words where none is. An item begins with what separates it, of which the first has
// none: it is put from index 1 on. (In one piece, so that of a page that is full an item is left out whole.)
fn put_set<T: Copy, I: Iterator<Item = (u8, T)> + Drop, F: Fn(&mut Page, T, usize)>(
    page: &mut Page,
    items: I,
    word: u16,
    none: &[u8],
    put_item: F,
)
    requires callable { F.IsAlwaysCallable put_item }
    requires can { I.can_next items }
    requires ends { IsFinite (I.remaining items) }
{
    let start = page.used;
    for (bit, item) in items {
        if word >> (bit % 16) & 1 == 1 {
            put_item(page, item, (page.used == start) as usize);
        }
    }
    if page.used == start {
        page.put(none);
    }
}

// Appends the flags of a status byte with a space between them, the highest first, or other words where none is set.
pub fn put_flags(page: &mut Page, status: u8, none: &[u8]) {
    put_set(
        page,
        FLAGS.iter().copied(),
        status as u16,
        none,
        |p, name, first| p.put(from(name, first)),
    );
}

// Appends the flags of a status byte as strings of an array, nothing where none is set.
pub fn put_flag_strings(page: &mut Page, status: u8) {
    put_set(
        page,
        STRINGS.iter().copied(),
        status as u16,
        b"",
        |p, name, first| p.put(from(name, first)),
    );
}

// The number of a group behind what separates it: a digit, or two.
fn put_group(page: &mut Page, group: u8, between: u8, first: usize) {
    let last = b'0' + group % 10;
    if group < 10 {
        page.put(from(&[between, last], first));
    } else {
        page.put(from(&[between, b'1', last], first));
    }
}

// Appends the numbers of the bits that are set in a group word, with a character between them, or other words where none is set.
pub fn put_groups(page: &mut Page, groups: u16, between: u8, none: &[u8]) {
    put_set(
        page,
        (0..16).map(|group| (group, group)),
        groups,
        none,
        |p, group, first| put_group(p, group, between, first),
    );
}
