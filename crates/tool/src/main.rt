// osp, the tool: its arguments, and a script of subcommands. docs/TOOL.md has what each reads and prints.
#![tactic(auto)]

use complaint::{Complaint, Status, Subcommand, Voice};
use std::env::FillError;
use std::process::ExitCode;
use std::rt::{Env, Files};
use text::Page;

fn main(rt: HostRuntime) -> ExitCode {
    let mut space = io::buffer();
    let mut page = Page::over(&mut space);
    let gathered = gather(&rt, &mut page);
    ExitCode::from(run_arguments(&rt, page.written(), gathered))
}

// Puts argument i behind the others, and a byte 0 behind it.
fn put_argument<R: Env>(rt: &R, i: usize, page: &mut Page) -> Result<(), FillError> {
    let at = text::within(page.used, page.room);
    let n = rt.arg(i, &mut page.room[at..])?;
    page.used = at.wrapping_add(n);
    page.put_byte(0);
    if page.used == at {
        Err(FillError::TooLong)
    } else {
        Ok(())
    }
}

// Puts all arguments but the program's name into one line, or those before the first for which there is no room.
fn gather<R: Env>(rt: &R, page: &mut Page) -> Result<(), FillError> {
    for i in 1..usize::MAX {
        match put_argument(rt, i, page) {
            Ok(()) => {}
            Err(FillError::NotPresent) => return Ok(()),
            Err(FillError::TooLong) => return Err(FillError::TooLong),
        }
    }
    Ok(())
}

// The first word of a line, and what follows it.
fn split_word(line: &[u8]) -> (&[u8], &[u8]) {
    let end = text::find(line, 0, line.len(), 0);
    (
        text::first(line, end),
        text::from(line, end.wrapping_add(1)),
    )
}

// The status that the program ends with: that of the subcommand behind the word --status, which the script `osp` puts first, else 0.
fn run_arguments<R: Files + Input + Print>(
    rt: &R,
    line: &[u8],
    gathered: Result<(), FillError>,
) -> u8 {
    let (word, rest) = split_word(line);
    if word == b"--status".as_slice() {
        return u8::from(run_first(rt, rest, gathered));
    }
    run_first(rt, line, gathered);
    0
}

fn run_first<R: Files + Input + Print>(
    rt: &R,
    line: &[u8],
    gathered: Result<(), FillError>,
) -> Status {
    if gathered.is_err() {
        let voice = Voice::new(text::ERR, Subcommand::Arguments);
        return voice.say(Complaint::TooLong);
    }
    if line == b"script\0".as_slice() {
        run_script(rt);
        return Status::Done;
    }
    run_line(rt, line, text::ERR)
}

// Runs a subcommand: words with a byte 0 behind each. Answers its status.
fn run_line<R: Files + Input + Print>(rt: &R, line: &[u8], err: i32) -> Status {
    let (word, rest) = split_word(line);
    match word {
        b"fields" => fields::show_fields(rt, rest, err),
        b"build" => ask::build::build(rt, rest, err),
        b"replay" => replay::replay_file(rt, rest, err),
        b"board" => replay::draw(rt, rest, err),
        b"dump" => dump::dump_file(rt, rest, err),
        _ => run_other(rt, word, rest, err),
    }
}

// The subcommands that take one word at most.
fn run_other<R: Print>(rt: &R, word: &[u8], rest: &[u8], err: i32) -> Status {
    let voice = Voice::new(err, Subcommand::Help);
    let (first, more) = split_word(rest);
    if !more.is_empty() {
        return voice.say(Complaint::OneWord(word));
    }
    match word {
        b"info" => ask::info::info(rt, first, err),
        b"help" | b"--help" | b"-h" => ask::help(rt, first, err),
        b"" => voice.say(Complaint::SubcommandExpected),
        _ => voice.say(Complaint::NoSubcommand(word)),
    }
}

// Puts a line of a script as arguments: for each space, which separates its words, the byte 0, and one behind them. (`put_arguments` of a
// page goes the other way: it puts a space for each byte 0.)
fn put_words(page: &mut Page, line: &[u8]) {
    for b in line {
        page.put_byte(if *b == b' ' { 0 } else { *b });
    }
    page.put_byte(0);
}

// Prints a line of a script, runs it, and prints its status. What is wrong goes to standard output too.
fn run_script_line<R: Files + Input + Print>(rt: &R, line: &[u8]) {
    let mut space = io::buffer();
    let mut page = Page::over(&mut space);
    io::write_all(text::OUT, b">> ");
    io::write_all(text::OUT, line);
    io::write_all(text::OUT, b"\n");
    put_words(&mut page, text::first(line, 4095));
    let status = run_line(rt, page.written(), text::OUT);
    page.clear();
    page.put(b"status ");
    page.put_byte(text::digit(u8::from(status)));
    page.put_byte(b'\n');
    page.say(text::OUT);
}

// Runs each line of standard input.
fn run_script<R: Files + Input + Print>(rt: &R) {
    let mut space = io::large_buffer();
    let n = io::read_full(text::IN, &mut space);
    for line in space[..n].split_inclusive(|b| *b == b'\n') {
        run_script_line(rt, line.strip_suffix(b"\n").unwrap_or(line));
    }
}
