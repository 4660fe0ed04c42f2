// Words, numbers and hex read from a line. Words are separated by spaces, tabs and carriage returns.
ghost use Rattle.std.specs.Prelude.{◌≡◌, drop, slice_set};

use crate::{byte_at, from, part};

// How far bytes in hex were read: where they end in the line, and how many there were.
#[derive(Clone, Copy)]
pub struct Hex {
    pub at: usize,
    pub count: usize,
}

// The words of a line, one after the other.
#[derive(Clone, Copy)]
pub struct Words<'a> {
    line: &'a [u8],
    at: usize,
}

impl<'a> Words<'a> {
    // The words of a line, from its first on.
    pub fn of(line: &'a [u8]) -> Words<'a>
        ensures line { result.line.now ≡ line.now }
        ensures at { result.at ≡ 0 }
    {
        Words { line, at: 0 }
    }

    // The next word; an empty one where none is left. (No Option: a complaint shows the word that it got, and no name is empty.)
    pub fn next_word(&mut self) -> &'a [u8] {
        let start = skip(self.line, self.at, false);
        self.at = skip(self.line, start, true);
        part(self.line, start, self.at)
    }

    // What stands behind the words that were taken.
    pub fn rest(&self) -> &'a [u8]
        ensures { result.now ≡ drop self.now.at self.now.line.now }
    {
        from(self.line, self.at)
    }
}

// The index of the first character from `at` on that is a gap, or that is none.
fn skip(s: &[u8], at: usize, gap: bool) -> usize {
    (at..s.len())
        .find(|i| is_gap(byte_at(s, *i)) == gap)
        .unwrap_or(s.len())
}

// Whether a character separates words.
fn is_gap(b: u8) -> bool {
    matches!(b, b' ' | b'\t' | b'\r')
}

// The value of a hex digit.
fn digit_value(b: u8) -> Option<u8> {
    match b {
        b'0'..=b'9' => Some(b - b'0'),
        b'A'..=b'F' => Some(b - b'A' + 10),
        b'a'..=b'f' => Some(b - b'a' + 10),
        _ => None,
    }
}

// The byte that two digits say.
fn pair_value(high: u8, low: u8) -> Option<u8> {
    Some(digit_value(high)? % 16 * 16 + digit_value(low)? % 16)
}

// The byte of two digits at an index.
fn pair_at(s: &[u8], i: usize) -> Option<u8> {
    pair_value(byte_at(s, i), byte_at(s, i.wrapping_add(1)))
}

// Stores a byte at an index; nothing where there is none.
fn store(bytes: &mut [u8], i: usize, b: u8)
    ensures { bytes.new ≡ slice_set bytes.old i b }
{
    if i < bytes.len() {
        bytes[i] = b;
    }
}

// One step: a byte and the space that mostly follows, or a gap. Nothing moves where there is neither.
fn step(s: &[u8], h: Hex, bytes: &mut [u8]) -> Hex {
    let Some(b) = pair_at(s, h.at) else {
        return Hex {
            at: h.at.wrapping_add(gap_at(s, h.at)),
            ..h
        };
    };
    store(bytes, h.count, b);
    let next = h.at.wrapping_add(2);
    Hex {
        at: next.wrapping_add(gap_at(s, next)),
        count: h.count.wrapping_add(1),
    }
}

// 1 where a gap stands at an index, else 0.
fn gap_at(s: &[u8], i: usize) -> usize {
    is_gap(byte_at(s, i)) as usize
}

// Reads bytes of two hex digits, and gaps between them, from an index on, up to anything else. Those that fit are stored (fixed memory:
// no heap in the tool). Each step but the last moves the index, by one or more, so that there are at most as many as bytes.
pub fn hex_at(s: &[u8], from: usize, bytes: &mut [u8]) -> Hex {
    let mut h = Hex { at: from, count: 0 };
    for _ in 0..s.len() {
        let next = step(s, h, bytes);
        if next.at == h.at {
            return next;
        }
        h = next;
    }
    h
}

// A digit behind others; what is above the largest number is taken as it.
fn with_decimal(n: u32, d: u8) -> u32 {
    n.saturating_mul(10).saturating_add(d as u32)
}

// The number that a word of decimal digits says; what is above the largest is taken as it.
pub fn decimal_of(s: &[u8]) -> Option<u32> {
    if s.is_empty() || !s.iter().all(|b| matches!(*b, b'0'..=b'9')) {
        return None;
    }
    Some(s.iter().fold(0, |n, b| with_decimal(n, *b % 16)))
}

// A hex digit behind others; what is above FFFF is taken as it.
fn with_hex(n: u16, d: u8) -> u16 {
    n.saturating_mul(16).saturating_add(d as u16)
}

// A hex number of any length in one word; what is above FFFF is taken as it.
pub fn address_of(s: &[u8]) -> Option<u16> {
    if s.is_empty() {
        return None;
    }
    let mut n = 0;
    for b in s {
        n = with_hex(n, digit_value(*b)?);
    }
    Some(n)
}

// The byte that a word of two hex digits says.
pub fn byte_of(s: &[u8]) -> Option<u8> {
    if s.len() != 2 {
        return None;
    }
    pair_value(s[0], s[1])
}
