// The refused telegram that ends a capture: what was expected, what its first bytes claim, and what it would say with the right checksum.
use crate::ending::plural;
use crate::{Form, Piece, put_meaning, put_object_start, put_start};
use std::fmt::Write;
use telegram::Refusal;
use text::{Page, byte_at, first};
use words::{InWords, command_name, put_members};

// The size index in the first three bytes.
fn index_in(s: &[u8]) -> u8 {
    telegram::index_in(byte_at(s, 1), byte_at(s, 2))
}

// How many payload bytes they claim.
fn size_in(s: &[u8]) -> usize {
    telegram::size_of(index_in(s))
}

// The bytes that decided a refusal: of the preamble the first, of the size index the first three, of the checksum a whole telegram, else
// all that are there.
fn deciding(e: Refusal, s: &[u8]) -> &[u8] {
    match e {
        Refusal::Preamble => first(s, 1),
        Refusal::SizeIndex => first(s, 3),
        Refusal::Checksum(_, _) => first(s, size_in(s).wrapping_add(4)),
        _ => s,
    }
}

// Appends what was expected of a frame.
fn put_expected(page: &mut Page, e: Refusal, s: &[u8]) {
    let _ = match e {
        Refusal::TooShort => write!(page, "4 bytes or more, got {}", s.len()),
        Refusal::Preamble => write!(page, "a first byte A0 to AF, got {:02X}", byte_at(s, 0)),
        Refusal::SizeIndex => write!(page, "size index 0 to 4, 6 or 7, got {}", index_in(s)),
        _ => write!(
            page,
            "{} bytes, got {}",
            size_in(s).wrapping_add(4),
            s.len()
        ),
    };
}

// Appends what the bytes claim.
fn put_claims(page: &mut Page, e: Refusal, s: &[u8]) {
    match e {
        Refusal::Preamble => page.put(b"claims nothing"),
        Refusal::SizeIndex => put_command(page, s),
        _ if s.len() < 3 => page.put(b"claims nothing yet"),
        _ => {
            put_command(page, s);
            let size = size_in(s);
            let _ = write!(page, ", {size} payload byte{}", plural(size as u64));
        }
    }
}

// Appends the command and the address that three bytes claim.
fn put_command(page: &mut Page, s: &[u8]) {
    let command = byte_at(s, 2) % 128;
    let address = words::address_in(byte_at(s, 0), byte_at(s, 1));
    let name = command_name(command);
    let _ = write!(
        page,
        "claims command {command:02X} ({name}), address {address:03X}"
    );
}

// Appends what a telegram whose checksum is wrong says with the right one in place of its last byte.
fn put_mended(page: &mut Page, s: &[u8], checksum: u8) {
    let mut room = [0u8; 16];
    let mut right = Page::over(&mut room);
    right.put(first(s, s.len().saturating_sub(1)));
    right.put_byte(checksum);
    put_meaning(page, verdict::judge(right.written()));
}

// Appends the lines. A wrong checksum says itself what was expected, and what the telegram would say stands behind what it claims.
fn put_lines(page: &mut Page, p: Piece, e: Refusal) {
    put_start(page, p);
    let _ = write!(page, "{}\n            ", InWords(e));
    if let Refusal::Checksum(computed, _) = e {
        put_claims(page, e, p.bytes);
        let _ = write!(page, "\n            with checksum {computed:02X}: ");
        put_mended(page, p.bytes, computed);
    } else {
        page.put(b"expected ");
        put_expected(page, e, p.bytes);
        page.put(b"\n            ");
        put_claims(page, e, p.bytes);
    }
    page.put_byte(b'\n');
}

// Appends the object.
fn put_object(page: &mut Page, p: Piece, e: Refusal) {
    put_object_start(page, p);
    page.put_byte(b',');
    put_members(page, e);
    if !matches!(e, Refusal::Checksum(_, _)) {
        page.put(b",\"expected\":\"");
        put_expected(page, e, p.bytes);
        page.put_byte(b'"');
    }
    page.put(b"}\n");
}

// Appends the refused telegram. `there` has its bytes as far as they are there, of which those are shown that decided the refusal.
pub fn put_refused(page: &mut Page, form: Form, there: Piece, e: Refusal) {
    let p = Piece {
        bytes: deciding(e, there.bytes),
        ..there
    };
    match form {
        Form::Text => put_lines(page, p, e),
        Form::Json => put_object(page, p, e),
    }
}
