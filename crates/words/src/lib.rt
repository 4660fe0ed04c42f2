// What the tool calls things: commands, casts, refusals, states and flags, and a telegram in words. docs/TOOL.md has the
// forms. A function named `put_..` appends to a page. What a replay prints of each telegram that was done is put by the page's methods
// (`put_decimal`, `put_hex`), which are faster than `write!`.
#![tactic(auto)]

ghost use Rattle.std.specs.Prelude.{◌≡◌, ◌+◌, ◌*◌, ◌/◌, ◌%◌, take, drop};

mod lists;
mod names;
pub mod objects;
mod payloads;
mod reasons;

pub use lists::{put_flag_strings, put_flags, put_groups};
pub use names::{command_name, command_named, direction_name, mode_name, state_name};
pub use reasons::{InWords, put_members, put_number};
use table::{Cast, Casts};
use telegram::{Address, Refusal, Telegram};
use text::Page;

// A command or an answer by its numbers: the address that it goes to or comes from, the command, and the payload's bytes. (The number
// and no `Command`: answers are told by it too, and it may be unknown, as in a telegram that is neither.)
#[derive(Clone, Copy)]
pub struct Message<'a> {
    pub address: u16,
    pub number: u8,
    pub payload: &'a [u8],
}

// The numbers in a telegram, or the refusal of its frame. Whether its command is known, the dissectors say.
pub fn message_of(s: &[u8]) -> Result<Message<'_>, Refusal> {
    Ok(message_in(s, telegram::read_frame(s)?))
}

// The numbers in a telegram whose frame was read.
pub fn message_in(s: &[u8], t: Telegram) -> Message<'_>
    ensures numbers { (result.address ≡ t.address.0) × (result.number ≡ t.command) }
    ensures payload { result.payload.now ≡ take t.size (drop 3 s.now) }
{
    Message {
        address: t.address.0,
        number: t.command,
        payload: text::first(text::from(s, 3), t.size),
    }
}

// The address in the first two bytes of what may be no telegram. (Of a telegram the reader gives it, by a function of its own.)
pub fn address_in(b0: u8, b1: u8) -> u16
    ensures { result ≡ b0 % 16 * 64 + b1 / 4 }
{
    bits::word(b0 % 16, b1) / 4
}

// To whom a command goes. It was accepted, so that its address is a destination.
pub(crate) fn cast_of(m: Message) -> Cast {
    table::destination_of(Address(m.address)).unwrap_or(Cast::Everyone)
}

// Whether a command is an init, whose address is that of the first lamp. (The chain has its own, which is private.)
fn is_init(number: u8) -> bool {
    table::row_of(number).is_some_and(|row| matches!(row.casts, Casts::First))
}

// Appends a command's name and to whom it goes.
fn put_cast(page: &mut Page, m: Message) {
    page.put(command_name(m.number).as_bytes());
    match cast_of(m) {
        Cast::Everyone => page.put(if is_init(m.number) {
            b" at 000".as_slice()
        } else {
            b" to everyone"
        }),
        Cast::One(a) => {
            page.put(if is_init(m.number) {
                b" from ".as_slice()
            } else {
                b" to lamp "
            });
            page.put_address(a.0);
        }
        Cast::Group(g) => {
            page.put(b" to group ");
            page.put_decimal(g as u64);
        }
    }
}

// Appends a command in words.
pub fn put_command(page: &mut Page, m: Message) {
    put_cast(page, m);
    payloads::put_payload(page, table::plain_number(m.number), m.payload);
}

// Appends an answer in words.
pub fn put_answer(page: &mut Page, m: Message) {
    page.put_address(m.address);
    page.put(b" answers ");
    page.put(command_name(m.number).as_bytes());
    payloads::put_payload(page, m.number, m.payload);
}
