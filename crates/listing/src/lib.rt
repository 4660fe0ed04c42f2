// What is printed of a raw capture: a telegram, the refused one that ends it, the last line; as text and as JSON. docs/TOOL.md has the
// forms.
#![tactic(auto)]

mod ending;
mod refused;

pub use ending::{Ending, Tally, put_end};
pub use refused::put_refused;
use std::fmt::Write;
use telegram::{Refusal, refusal_number};
use text::Page;
use verdict::Verdict;
use words::{Message, command_name, objects};

// How a capture is listed: as text or as JSON, an object a line. (A value that an option gives, and matched on where they differ: a trait
// with an impl for each form would be no plainer.)
#[derive(Clone, Copy)]
pub enum Form {
    Text,
    Json,
}

// A telegram of a capture, or what is shown of a refused one: the position of its first byte, and its bytes.
#[derive(Clone, Copy)]
pub struct Piece<'a> {
    pub position: u64,
    pub bytes: &'a [u8],
}

// Appends the start of a line: the position, right in ten columns, and the bytes in theirs.
pub(crate) fn put_start(page: &mut Page, p: Piece) {
    let _ = write!(page, "{:>10}", p.position);
    let start = page.used;
    page.put_byte(b' ');
    page.put_spaced_hex(p.bytes);
    page.put_spaces(start, 39);
}

// The start of an object: the position and the bytes.
pub(crate) fn put_object_start(page: &mut Page, p: Piece) {
    page.put(b"{\"position\":");
    page.put_decimal(p.position);
    page.put(b",\"bytes\":\"");
    page.put_all_hex(p.bytes);
    page.put_byte(b'"');
}

// Appends what a telegram says, or the numbers of its two refusals. (What is listed was read, so that it is never `Unread`.)
pub(crate) fn put_meaning(page: &mut Page, v: Verdict) {
    match v {
        Verdict::Neither(command, answer) => {
            let _ = write!(
                page,
                "neither: as a command refused {}, as an answer refused {}",
                refusal_number(command),
                refusal_number(answer)
            );
        }
        _ => verdict::put_words(page, v),
    }
}

// Appends what an answer answers and the answer, as the end of an object.
fn put_given(page: &mut Page, m: Message) {
    page.put(b",\"answers\":\"");
    page.put(command_name(m.number).as_bytes());
    page.put_byte(b'"');
    objects::put_answer(page, m);
}

// The numbers of the two refusals of a telegram, as the end of an object.
fn put_neither(page: &mut Page, command: Refusal, answer: Refusal) {
    let _ = writeln!(
        page,
        ",\"number\":0,\"as_command\":{},\"as_answer\":{}}}",
        refusal_number(command),
        refusal_number(answer)
    );
}

// What a telegram says, or the numbers of its two refusals, as the end of an object. (As above, `Unread` does not come.)
fn put_object_end(page: &mut Page, v: Verdict) {
    match v {
        Verdict::Sent(m) => {
            objects::put_command(page, m);
            page.put(b"}\n");
        }
        Verdict::Given(m) => {
            page.put(b",\"number\":0");
            put_given(page, m);
        }
        Verdict::Either(m) => {
            objects::put_command(page, m);
            put_given(page, m);
        }
        Verdict::Unread(e) => put_neither(page, e, e),
        Verdict::Neither(command, answer) => put_neither(page, command, answer),
    }
}

// Appends a telegram that `v` is the verdict of.
pub fn put_telegram(page: &mut Page, form: Form, p: Piece, v: Verdict) {
    match form {
        Form::Text => {
            put_start(page, p);
            put_meaning(page, v);
            page.put_byte(b'\n');
        }
        Form::Json => {
            put_object_start(page, p);
            put_object_end(page, v);
        }
    }
}
