// The bytes of a case, read from its line, and the numbers that lie in them.
use text::{Page, byte_at};

// Appends the bytes that the hexadecimal digits of a line say, two a byte. What is no digit, and what does not fit, is passed over.
pub(crate) fn put_bytes(page: &mut Page, line: &[u8]) {
    let mut high = None;
    for d in line.iter().filter_map(|c| digit_of(*c)) {
        high = match high {
            None => Some(d),
            Some(h) => {
                page.put_byte(joined(h, d));
                None
            }
        };
    }
}

// The value of a hexadecimal digit (not that of `text`: a case takes capitals only).
fn digit_of(character: u8) -> Option<u8> {
    match character {
        b'0'..=b'9' => Some(character - b'0'),
        b'A'..=b'F' => Some(character - b'A' + 10),
        _ => None,
    }
}

fn joined(high: u8, low: u8) -> u8 {
    high % 16 * 16 + low % 16
}

// The number of four bytes, high byte first, at an index.
pub(crate) fn long_at(s: &[u8], i: usize) -> u32 {
    let t = text::from(s, i);
    u32::from_be_bytes([byte_at(t, 0), byte_at(t, 1), byte_at(t, 2), byte_at(t, 3)])
}
