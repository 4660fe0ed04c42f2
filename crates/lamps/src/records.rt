// A lamp as a row of the table and as an object.
use crate::status_of;
use command::pwm_of;
use rules::Lamp;
use std::fmt::Write;
use text::{Page, five};
use words::{direction_name, mode_name, put_flag_strings, put_flags, put_groups, state_name};

// Appends a row of the table. (In pieces, as on the picture.)
pub(crate) fn put_row(page: &mut Page, place: u16, l: Lamp) {
    let status = status_of(l);
    page.put(&five(place));
    page.put_byte(b' ');
    page.put_address(l.address.0);
    page.put(b"  ");
    put_column(page, state_name(status), 14);
    put_column(page, direction_name(status), 6);
    page.put_hex(l.temperature);
    page.put(b"   ");
    page.put_hex(l.thresholds.cycle);
    page.put_byte(b' ');
    page.put_hex(l.thresholds.low);
    page.put_byte(b' ');
    page.put_hex(l.thresholds.high);
    page.put(b"   ");
    page.put_hex(l.setup);
    page.put(b"    ");
    put_columns(page, l.pwm.red);
    put_columns(page, l.pwm.green);
    put_columns(page, l.pwm.blue);
    put_lists(page, status, l.groups);
}

// Appends a PWM word in its columns.
fn put_columns(page: &mut Page, word: u16) {
    let pwm = pwm_of(word);
    put_column(page, mode_name(pwm.day), 6);
    page.put(&five(pwm.duty));
    page.put_byte(b' ');
}

// Appends a name in a column.
fn put_column(page: &mut Page, name: &str, width: usize) {
    let start = page.used;
    page.put(name.as_bytes());
    page.put_spaces(start, width);
}

// Appends the flags in their column, and the groups, which end the row.
fn put_lists(page: &mut Page, status: u8, groups: u16) {
    let start = page.used;
    put_flags(page, status, b"none");
    page.put_spaces(start, 20);
    put_groups(page, groups, b' ', b"none");
    page.put_byte(b'\n');
}

// Appends an object.
pub(crate) fn put_object(page: &mut Page, place: u16, l: Lamp) {
    let status = status_of(l);
    let _ = write!(
        page,
        "{{\"place\":{place},\"address\":{},\"state\":\"{}\",\"com\":{},\"flags\":[",
        l.address.0,
        state_name(status),
        lamp::bit_number(l.direction)
    );
    put_flag_strings(page, status);
    page.put_byte(b']');
    let _ = write!(
        page,
        ",\"temperature\":{},\"thresholds\":[{},{},{}],\"setup\":{},\"groups\":[",
        l.temperature, l.thresholds.cycle, l.thresholds.low, l.thresholds.high, l.setup
    );
    put_groups(page, l.groups, b',', b"");
    page.put(b"],\"pwm\":");
    let red = pwm_of(l.pwm.red);
    let green = pwm_of(l.pwm.green);
    let blue = pwm_of(l.pwm.blue);
    let _ = write!(
        page,
        "[{{\"mode\":\"{}\",\"duty\":{}}},{{\"mode\":\"{}\",\"duty\":{}}},{{\"mode\":\"{}\",\"duty\":{}}}]}}\n",
        mode_name(red.day),
        red.duty,
        mode_name(green.day),
        green.duty,
        mode_name(blue.day),
        blue.duty
    );
}
