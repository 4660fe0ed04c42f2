// What the bytes of a payload say.
use crate::{direction_name, put_flags, state_name};
use text::{Page, byte_at, from};

// The word of the first two bytes.
fn word_in(payload: &[u8]) -> u16 {
    bits::word(byte_at(payload, 0), byte_at(payload, 1))
}

// Appends what a payload says: of a command by the number of its plain form, of an answer by its own. Nothing where it has no bytes.
pub(crate) fn put_payload(page: &mut Page, number: u8, payload: &[u8]) {
    match payload.len() {
        0 => {}
        6 => put_colours(page, payload),
        _ => put_values(page, number, payload),
    }
}

// Appends three PWM words, red, green and blue.
fn put_colours(page: &mut Page, payload: &[u8]) {
    put_pwm(page, b": red day ", b": red night ", word_in(payload));
    put_pwm(
        page,
        b", green day ",
        b", green night ",
        word_in(from(payload, 2)),
    );
    put_pwm(
        page,
        b", blue day ",
        b", blue night ",
        word_in(from(payload, 4)),
    );
}

// Appends a PWM word, whose top bit is the mode, behind its colour and mode. (`command::pwm_of` splits it so: this crate does not rest on
// `command`.)
fn put_pwm(page: &mut Page, day: &[u8], night: &[u8], word: u16) {
    page.put(if word < 32768 { night } else { day });
    page.put_decimal((word % 32768) as u64);
}

fn put_values(page: &mut Page, number: u8, payload: &[u8]) {
    let first = byte_at(payload, 0);
    match number {
        0x0C..=0x0D => {
            page.put(b": mask ");
            page.put_word(word_in(payload));
        }
        0x4A..=0x4B => {
            page.put(b": thresholds");
            page.put_spaced_hex(payload);
        }
        0x4C..=0x4D => {
            page.put(b": setup ");
            page.put_hex(first);
        }
        0x07 => {
            page.put(b": identity ");
            page.put_all_hex(payload);
        }
        0x40 => put_status(page, b": status ", first),
        0x48 => {
            page.put(b": temperature ");
            page.put_hex(first);
        }
        // 02, 03, 42 and the acknowledged commands, the other answers
        _ => {
            page.put(b": temperature ");
            page.put_hex(first);
            put_status(page, b", status ", byte_at(payload, 1));
        }
    }
}

// Appends a status byte in hex and in words, behind what it is called.
fn put_status(page: &mut Page, called: &[u8], status: u8) {
    page.put(called);
    page.put_hex(status);
    page.put(b" (");
    page.put(state_name(status).as_bytes());
    page.put(b", ");
    page.put(direction_name(status).as_bytes());
    page.put(b", ");
    put_flags(page, status, b"no flags");
    page.put_byte(b')');
}
