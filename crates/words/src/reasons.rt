// Why something is refused, in words and for an object.
use std::fmt;
use std::fmt::Write;
use telegram::{Refusal, refusal_number};
use text::Page;

// The paper's words for a refusal.
fn reason(e: Refusal) -> &'static str {
    match e {
        Refusal::TooShort => "fewer than 4 bytes",
        Refusal::Preamble => "preamble is not 1010",
        Refusal::SizeIndex => "size index 5",
        Refusal::ByteCount => "byte count is not 4 + payload size",
        Refusal::Checksum(_, _) => "checksum differs",
        Refusal::UnknownCommand => "unknown command, or an answer to a command that has none",
        Refusal::CastNotAllowed => "cast not allowed, or init at 000 while a lamp has no address",
        Refusal::PayloadSize => "payload size wrong for the command",
        Refusal::RoomTooSmall => "room too small",
        Refusal::OutOfRange =>
            "builder field, PWM duty or fault number out of range, or payload length not listed",
        Refusal::NoChain => "lamp count not 1 to 1007, or no valid chain",
        Refusal::InitPastEnd => "init runs past 3EF",
        Refusal::NoLamp => "no lamp at that place",
    }
}

// A refusal in words, with the checksums of a wrong one: refused 5: checksum differs (worked out 9F, received B5).
#[derive(Clone, Copy)]
pub struct InWords(pub Refusal);

impl fmt::Display for InWords {
    fn fmt<W: fmt::Write>(&self, f: &mut fmt::Formatter<W>) -> fmt::Result {
        write!(f, "refused {}: {}", refusal_number(self.0), reason(self.0))?;
        match self.0 {
            Refusal::Checksum(computed, received) => write!(
                f,
                " (worked out {computed:02X}, received {received:02X})"
            ),
            _ => Ok(()),
        }
    }
}

// Appends a refusal for an object: its number, its words, its checksums.
pub fn put_members(page: &mut Page, e: Refusal) {
    let _ = write!(
        page,
        "\"number\":{},\"refusal\":\"{}\"",
        refusal_number(e),
        reason(e)
    );
    put_checksums(page, e);
}

// The same without the words; no refusal is number 0.
pub fn put_number(page: &mut Page, refusal: Option<Refusal>) {
    match refusal {
        Some(e) => {
            let _ = write!(page, "\"number\":{}", refusal_number(e));
            put_checksums(page, e);
        }
        None => page.put(b"\"number\":0"),
    }
}

// Appends the checksums of a wrong one for an object; of any other refusal nothing.
fn put_checksums(page: &mut Page, e: Refusal) {
    if let Refusal::Checksum(computed, received) = e {
        let _ = write!(page, ",\"computed\":{computed},\"received\":{received}");
    }
}
