// What is printed of a line for machines: an object a line. (What stands in each telegram's object is put by the page's methods, which are
// faster than `write!`.)
use crate::{Given, Line, Telegram, is_either};
use std::fmt::Write;
use telegram::Refusal;
use text::Page;
use words::{message_of, objects};

// Appends the bytes of a telegram behind the start of an object: where it stands.
fn put_sent(page: &mut Page, called: &[u8], at: u64, t: &Telegram) {
    page.put(called);
    page.put_decimal(at);
    page.put(b",\"tx\":\"");
    page.put_all_hex(t.bytes());
    page.put_byte(b'"');
}

// Appends the answer, or that there is none.
fn put_received(page: &mut Page, answer: &Option<Telegram>) {
    let Some(t) = answer else {
        page.put(b",\"rx\":null}\n");
        return;
    };
    page.put(b",\"rx\":\"");
    page.put_all_hex(t.bytes());
    page.put_byte(b'"');
    if let Ok(m) = message_of(t.bytes()) {
        objects::put_answer(page, m);
    }
}

// Appends a command, and for one that may be an answer that it is either.
fn put_command(page: &mut Page, s: &[u8], either: bool) {
    if let Ok(m) = message_of(s) {
        objects::put_command(page, m);
    }
    if either {
        page.put(b",\"either\":true");
    }
}

// Appends a refusal as the end of an object.
fn put_refused(page: &mut Page, e: Refusal) {
    page.put_byte(b',');
    words::put_members(page, e);
    page.put(b"}\n");
}

// Appends what the chain gave for a telegram.
fn put_given(page: &mut Page, t: &Telegram, either: bool, given: &Given) {
    match given {
        Ok(answer) => {
            put_command(page, t.bytes(), either);
            put_received(page, answer);
        }
        Err(e) => put_refused(page, *e),
    }
}

// Appends what is printed of a line; nothing of one that says nothing.
pub(crate) fn put_line(page: &mut Page, before: u64, line: &Line, given: &Given) {
    let number = before.wrapping_add(1);
    match line {
        Line::Sent(t) => {
            put_sent(page, b"{\"line\":", number, t);
            put_given(page, t, false, given);
        }
        Line::Captured(t) => {
            put_sent(page, b"{\"position\":", before, t);
            put_given(page, t, is_either(line, given), given);
        }
        Line::Sensor(r) => {
            let _ = write!(
                page,
                "{{\"line\":{number},\"place\":{},\"temperature\":{},\"faults\":{}",
                r.place, r.temperature, r.faults
            );
            match given {
                Ok(_) => page.put(b",\"number\":0}\n"),
                Err(e) => put_refused(page, *e),
            }
        }
        Line::Blank | Line::Malformed => {}
    }
}

// Appends where a capture stopped.
pub(crate) fn put_stopped(page: &mut Page, position: u64, e: Refusal) {
    let _ = write!(page, "{{\"stopped\":{position}");
    put_refused(page, e);
}
