// What can be wrong, and the line that says so.
use crate::{Status, Subcommand};
use std::fmt::Write;
use telegram::Refusal;
use text::Page;
use words::InWords;

// What can be wrong, with the word, the line, the refusal or the option that it is about.
#[derive(Clone, Copy)]
pub enum Complaint<'a> {
    BytesExpected,
    TelegramExpected,
    PayloadExpected,
    AddressExpected,
    NoCommand(&'a [u8]),
    NoSubcommand(&'a [u8]),
    OneWord(&'a [u8]),
    SubcommandExpected,
    TooLong,
    Refused(Refusal),
    Malformed(u64),
    LineRefused,
    InOptions(WrongOption),
    TelegramRefused,
    Stopped(u64, Refusal),
    Either,
}

// What the library refuses is a complaint.
impl<'a> From<Refusal> for Complaint<'a> {
    fn from(e: Refusal) -> Complaint<'a> {
        Complaint::Refused(e)
    }
}

// What can be wrong with the options of a subcommand.
#[derive(Clone, Copy)]
pub enum WrongOption {
    LampsExpected,
    SetupExpected,
    ThresholdsExpected,
    OptionExpected,
    OneFile,
    LampsMissing,
    FileExpected,
}

// The status of a subcommand that ends with a complaint.
pub(crate) fn status_of(what: Complaint) -> Status {
    match what {
        Complaint::Refused(_) | Complaint::Stopped(_, _) => Status::Refused,
        _ => Status::Wrong,
    }
}

// Appends at most 60 characters of a word that somebody gave; of those that cannot stand in a line, a question mark each.
pub(crate) fn put_plain(page: &mut Page, word: &[u8]) {
    for b in text::first(word, 60) {
        page.put_byte(if matches!(*b, 32..=126) { *b } else { b'?' });
    }
}

// What a word is not, behind it.
const NO_COMMAND: &[u8] = b" is no command; osp info lists them";

const NO_SUBCOMMAND: &[u8] = b" is no subcommand; see osp help";

const ONE_WORD: &[u8] = b" is no subcommand, or takes one word at most; see osp help";

// Appends a word in quotes, and what it is not.
fn put_quoted(page: &mut Page, word: &[u8], rest: &[u8]) {
    page.put_byte(b'\'');
    put_plain(page, word);
    page.put_byte(b'\'');
    page.put(rest);
}

// What a subcommand expects where an option or the file stands.
fn expected_by(subcommand: Subcommand) -> &'static str {
    match subcommand {
        Subcommand::Board => "expected --lamps, --setup, --thresholds, --raw or a file",
        Subcommand::Dump => "expected --json, --quiet or a file",
        _ => "expected --lamps, --setup, --thresholds, --raw, --quiet, --json or a file",
    }
}

// Appends what is wrong with the options of a subcommand, which has a help of its own.
fn put_wrong_option(page: &mut Page, what: WrongOption, subcommand: Subcommand) {
    let words = match what {
        WrongOption::LampsExpected => "--lamps expects a number",
        WrongOption::SetupExpected => "--setup expects a byte of two hex digits",
        WrongOption::ThresholdsExpected => "--thresholds expects three bytes of two hex digits",
        WrongOption::OptionExpected => expected_by(subcommand),
        WrongOption::OneFile => "expected one file",
        WrongOption::LampsMissing => "--lamps N is missing",
        WrongOption::FileExpected => "expected a file, or - for standard input",
    };
    let _ = write!(page, "{words}; see osp help {subcommand}");
}

// Appends that a line of a script is malformed.
fn put_malformed(page: &mut Page, line: u64) {
    let _ = write!(
        page,
        "line {line}: expected hex bytes, 'sensor PLACE TEMP FAULTS' or a comment"
    );
}

// Appends where a capture stopped, and by which refusal. (`lines` has these words too, and does not rest on this crate.)
fn put_stopped(page: &mut Page, position: u64, e: Refusal) {
    let _ = write!(
        page,
        "capture stopped at position {position}: {}",
        InWords(e)
    );
}

// Appends a refusal in words.
fn put_refused(page: &mut Page, e: Refusal) {
    let _ = write!(page, "{}", InWords(e));
}

// Appends what is wrong with the word or the value that a complaint names, or the words of any other.
pub(crate) fn put_complaint(page: &mut Page, what: Complaint, subcommand: Subcommand) {
    let words = match what {
        Complaint::NoCommand(word) => return put_quoted(page, word, NO_COMMAND),
        Complaint::NoSubcommand(word) => return put_quoted(page, word, NO_SUBCOMMAND),
        Complaint::OneWord(word) => return put_quoted(page, word, ONE_WORD),
        Complaint::Refused(e) => return put_refused(page, e),
        Complaint::Malformed(line) => return put_malformed(page, line),
        Complaint::Stopped(position, e) => return put_stopped(page, position, e),
        Complaint::InOptions(wrong) => return put_wrong_option(page, wrong, subcommand),
        Complaint::BytesExpected => {
            "expected bytes of two hex digits, as in: osp fields A0 25 02 6B 50 7F"
        }
        Complaint::TelegramExpected => {
            "expected the bytes of a telegram, as in: osp fields A0 25 02 6B 50 7F"
        }
        Complaint::PayloadExpected => {
            "expected the payload in hex; setpwm and setpwm_sr also take three of 'night DUTY' or 'day DUTY'"
        }
        Complaint::AddressExpected => {
            "expected ADDRESS COMMAND [VALUES]: a hex address, everyone, or group N, then a command"
        }
        Complaint::SubcommandExpected => "expected a subcommand; see osp help",
        Complaint::TooLong => "expected at most 4,095 bytes of them",
        Complaint::LineRefused => "a line of the script was refused; osp replay says which",
        Complaint::TelegramRefused => {
            "a telegram of the capture was refused; osp replay --raw says which"
        }
        Complaint::Either => {
            "a setmult_sr of the capture may be an answer of its lamp; it was done as a command"
        }
    };
    page.put(words.as_bytes());
}
