// What is printed of a line as text.
use crate::{Given, Line, Report, Telegram, is_either};
use std::fmt::Write;
use telegram::Refusal;
use text::Page;
use words::{InWords, message_of};

// The column in which stands what a line says, or what the chain gave.
const COLUMN: usize = 40;

// Appends the bytes behind a tag, and spaces up to the column. Of more than 12 bytes the first 11 are shown.
fn put_bytes(page: &mut Page, tag: &[u8], s: &[u8]) {
    let start = page.used;
    page.put(tag);
    if s.len() <= 12 {
        page.put_spaced_hex(s);
    } else {
        page.put_spaced_hex(text::first(s, 11));
        page.put(b" ..");
    }
    page.put_spaces(start, COLUMN);
}

// Appends the answer, or that there is none.
fn put_received(page: &mut Page, answer: &Option<Telegram>) {
    let Some(t) = answer else {
        page.put(b"\nrx none\n");
        return;
    };
    page.put_byte(b'\n');
    put_bytes(page, b"rx", t.bytes());
    if let Ok(m) = message_of(t.bytes()) {
        words::put_answer(page, m);
    }
    page.put_byte(b'\n');
}

// Appends a command in words, and for one that may be an answer that it was done as a command.
fn put_command(page: &mut Page, s: &[u8], either: bool) {
    let Ok(m) = message_of(s) else {
        return;
    };
    words::put_command(page, m);
    if either {
        page.put(b" (or an answer of ");
        page.put_address(m.address);
        page.put(b"; done as a command)");
    }
}

// Appends a refusal behind the line's number, or behind the position in a capture.
fn put_refused(page: &mut Page, before: u64, line: &Line, e: Refusal) {
    let _ = match line {
        Line::Captured(_) => writeln!(page, "position {before}: {}", InWords(e)),
        _ => writeln!(page, "line {}: {}", before.wrapping_add(1), InWords(e)),
    };
}

// Appends what a report that was taken did. Its faults, below 8, are the lowest three flags of a status byte.
fn put_sensed(page: &mut Page, r: &Report) {
    let _ = write!(
        page,
        "place {}: temperature {:02X}, sets ",
        r.place, r.temperature
    );
    words::put_flags(page, u8::try_from(r.faults).unwrap_or(0), b"no flag");
    page.put_byte(b'\n');
}

// Appends what is printed of a line; nothing of one that says nothing.
pub(crate) fn put_line(page: &mut Page, before: u64, line: &Line, given: &Given) {
    match line {
        Line::Sent(t) | Line::Captured(t) => {
            put_bytes(page, b"tx", t.bytes());
            match given {
                Ok(answer) => {
                    put_command(page, t.bytes(), is_either(line, given));
                    put_received(page, answer);
                }
                Err(e) => put_refused(page, before, line, *e),
            }
        }
        Line::Sensor(r) => {
            let start = page.used;
            let _ = write!(
                page,
                "sensor {} {:02X} {}",
                r.place, r.temperature, r.faults
            );
            page.put_spaces(start, COLUMN);
            match given {
                Ok(_) => put_sensed(page, r),
                Err(e) => put_refused(page, before, line, *e),
            }
        }
        Line::Blank | Line::Malformed => {}
    }
}

// Appends where a capture stopped. (In the words of `complaint`, on which this crate does not rest: it would for this sentence alone.)
pub(crate) fn put_stopped(page: &mut Page, position: u64, e: Refusal) {
    let _ = writeln!(
        page,
        "capture stopped at position {position}: {}",
        InWords(e)
    );
}
