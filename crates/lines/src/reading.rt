// The line at an index of a text.
use crate::{Holds, LONGEST_LINE, Line, Report, Telegram};
use frame::Cut;
use text::reading::{Words, byte_of, decimal_of, hex_at};

// A line of so many bytes in hex; none is a blank line.
fn hex_line(room: [u8; 16], count: usize) -> Line {
    if count == 0 {
        return Line::Blank;
    }
    Line::Sent(Telegram { room, count })
}

// The sensor report that a line without comment says, if it says one.
fn sensor_in(line: &[u8]) -> Option<Report> {
    let mut words = Words::of(line);
    if words.next_word() != b"sensor".as_slice() {
        return None;
    }
    let place = decimal_of(words.next_word())?;
    let temperature = byte_of(words.next_word())?;
    let faults = decimal_of(words.next_word())?;
    if !words.next_word().is_empty() {
        return None;
    }
    Some(Report {
        place,
        temperature,
        faults,
    })
}

// What a line says, without its line feed.
fn line_of(line: &[u8]) -> Line {
    let mut room = [0u8; 16];
    let code = text::first(line, text::find(line, 0, line.len(), b'#'));
    let h = hex_at(code, 0, &mut room);
    if h.at < code.len() {
        return sensor_in(code).map_or(Line::Malformed, Line::Sensor);
    }
    hex_line(room, h.count)
}

// The telegram at an index of whole telegrams.
fn captured_at(s: &[u8], at: usize) -> Option<(Line, usize)> {
    let rest = text::from(s, at);
    let Cut::Whole(count) = frame::cut_first(rest) else {
        return None;
    };
    let mut room = [0u8; 16];
    text::Page::over(&mut room).put(text::first(rest, count));
    Some((
        Line::Captured(Telegram { room, count }),
        at.wrapping_add(count),
    ))
}

// The line of any kind at an index, and where it ends. The last line of a file needs no line feed.
fn any_at(s: &[u8], at: usize, last: bool) -> Option<(Line, usize)> {
    let n = s.len();
    if n < at {
        return None;
    }
    let end = text::find(s, at, n, b'\n');
    if end == n && !last {
        return None;
    }
    Some((line_of(&s[at..end]), end))
}

// The line at an index of a text, and the index where the next one begins; none where it is not whole. Hex up to its line feed is read at
// once, anything else by what the text holds. (A telegram's first byte is no hex digit.)
pub fn line_at(s: &[u8], at: usize, holds: Holds) -> Option<(Line, usize)> {
    let mut room = [0u8; 16];
    let h = hex_at(s, at, &mut room);
    let (line, end) = if text::byte_at(s, h.at) == b'\n' {
        (hex_line(room, h.count), h.at)
    } else {
        match holds {
            Holds::Telegrams => return captured_at(s, at),
            Holds::Lines => any_at(s, at, false)?,
            Holds::LastLine => any_at(s, at, true)?,
        }
    };
    let taken = if LONGEST_LINE < end.wrapping_sub(at) {
        Line::Malformed
    } else {
        line
    };
    Some((taken, end.wrapping_add(1)))
}
