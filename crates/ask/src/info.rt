// osp info: what each command is. Casts and sizes are the library's own table.
use crate::commands::{byte_names, description};
use complaint::{Complaint, Status, Subcommand, Voice};
use std::fmt::Write;
use table::{Casts, Row};
use text::Page;
use words::{command_name, command_named};

// The words for casts.
fn casts_named(casts: Casts) -> &'static str {
    match casts {
        Casts::All => "one group everyone",
        Casts::Single => "one",
        Casts::First => "first address, 000",
    }
}

// Appends the row of a command.
fn put_row(page: &mut Page, number: u8, row: Row) {
    let name = command_name(number);
    let casts = casts_named(row.casts);
    let does = description(number);
    let _ = writeln!(
        page,
        "{number:02X}  {name:<16}{casts:<19}      {}      {} {does}",
        row.payload, row.answer
    );
}

// Appends the rows of all commands.
fn put_all(page: &mut Page) {
    page.put(b"hex name            casts              payload answer what it does\n");
    for number in 0..0x80 {
        if let Some(row) = table::row_of(number) {
            put_row(page, number, row);
        }
    }
}

// Appends what the payload and the answer are: their sizes, and the bytes of the payload by name, or where there is none of the answer.
fn put_sizes(page: &mut Page, number: u8, row: Row) {
    let names = byte_names(number);
    let _ = match (row.payload, row.answer) {
        (payload, 0) => writeln!(page, "PAYLOAD    : {payload}{names}; response none"),
        (0, answer) => writeln!(page, "PAYLOAD    : 0; response {answer}{names}"),
        (payload, answer) => writeln!(
            page,
            "PAYLOAD    : {payload}{names}; response {answer} (temp stat)"
        ),
    };
}

// Appends whether a status can be requested with a command, by bit 5 of its number.
fn put_request(page: &mut Page, number: u8) {
    let requesting = number | 0x20;
    if table::is_acknowledged(number) {
        put_related(page, "set", table::plain_number(number), " is without");
    } else if table::is_acknowledged(requesting) {
        put_related(page, "yes", requesting, "");
    } else {
        page.put(b"STATUS REQ : no (no sr possible)\n");
    }
}

// Appends that a status can be requested, or is, and the command with or without it.
fn put_related(page: &mut Page, requested: &str, number: u8, rest: &str) {
    let name = command_name(number);
    let _ = writeln!(page, "STATUS REQ : {requested} ({number:02X} {name}{rest})");
}

// Appends the block of a command; nothing where the table has none of the number.
fn put_block(page: &mut Page, number: u8) {
    let Some(row) = table::row_of(number) else {
        return;
    };
    let name = command_name(number);
    let casts = casts_named(row.casts);
    let does = description(number);
    let _ = writeln!(
        page,
        "TELEGRAM {number:02X}: {name}\nDESCRIPTION: {does}\nCASTING    : {casts}"
    );
    put_sizes(page, number, row);
    put_request(page, number);
}

// The subcommand.
pub fn info<R: Print>(rt: &R, word: &[u8], err: i32) -> Status {
    let voice = Voice::new(err, Subcommand::Info);
    let mut room = io::buffer();
    let mut page = Page::over(&mut room);
    if word.is_empty() {
        put_all(&mut page);
    } else {
        let Some(number) = command_named(word) else {
            return voice.say(Complaint::NoCommand(word));
        };
        put_block(&mut page, number);
    }
    voice.finish(rt, page.written(), Status::Done)
}
