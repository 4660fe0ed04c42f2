// A telegram for machines: parts of an object.
use crate::{Message, cast_of, command_name};
use table::Cast;
use text::Page;

// Appends a command that was not refused: the number 0, its name, to whom it goes, its payload.
pub fn put_command(page: &mut Page, m: Message) {
    page.put(b",\"number\":0,\"command\":\"");
    page.put(command_name(m.number).as_bytes());
    put_cast(page, m);
    page.put(b",\"payload\":\"");
    page.put_all_hex(m.payload);
    page.put_byte(b'"');
}

// Appends the kind of a cast and its value: an address, the number of a group, for everyone 0.
fn put_cast(page: &mut Page, m: Message) {
    match cast_of(m) {
        Cast::Everyone => page.put(b"\",\"cast\":\"everyone\",\"value\":0"),
        Cast::One(a) => {
            page.put(b"\",\"cast\":\"one\",\"value\":");
            page.put_decimal(a.0 as u64);
        }
        Cast::Group(g) => {
            page.put(b"\",\"cast\":\"group\",\"value\":");
            page.put_decimal(g as u64);
        }
    }
}

// Appends the address that answers and the answer's bytes, and ends the object.
pub fn put_answer(page: &mut Page, m: Message) {
    page.put(b",\"address\":");
    page.put_decimal(m.address as u64);
    page.put(b",\"answer\":\"");
    page.put_all_hex(m.payload);
    page.put(b"\"}\n");
}
