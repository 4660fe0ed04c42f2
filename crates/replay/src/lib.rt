// osp replay and osp board: a script of telegrams and sensor reports, or a raw capture, done on a fresh chain, and the chain after it, as a
// table, as JSON or as a picture. docs/TOOL.md has the forms.
#![tactic(auto)]

use complaint::{Complaint, Status, Subcommand, Voice};
use files::{Output, Stop};
use lamps::Look;
use lines::Style;
use options::{ChainOptions, Options, chain_options};
use rules::Place;
use script::Playing;
use std::rt::Files;
use telegram::Refusal;

// Prints the chain after a script, behind an empty line where lines of the script stand above it. Where the page cannot be
// written, that is tried again before each lamp that follows; the run has failed in any case.
fn print_chain<R: Print>(playing: &mut Playing<R>, look: Look, count: u16) -> Result<(), Stop> {
    if playing.style == Style::Text {
        playing.output.page.put_byte(b'\n');
    }
    lamps::put_start(&mut playing.output.page, look, count);
    let mut failed = Ok(());
    for place in 0..count {
        if let Err(stop) = playing.output.make_room() {
            failed = Err(stop);
        }
        if let Ok(l) = chain::read_lamp(playing.memory, Place(place as usize)) {
            lamps::put_lamp(&mut playing.output.page, look, place, count, l);
        }
    }
    lamps::put_end(&mut playing.output.page, look, count);
    playing.output.flush()?;
    failed
}

// Opens the script, or the capture, does it, and prints the chain after it. Answers the refusal of the capture itself, if it was refused.
// (The number of lamps is a u16, since no chain has more than 1,007.)
fn play<R: Files + Input + Print>(
    rt: &R,
    playing: &mut Playing<R>,
    o: &ChainOptions,
    look: Look,
) -> Result<Option<Refusal>, Stop> {
    let mut input = files::open_file(rt, o.options.file)?;
    let refusal = if o.raw {
        raw::do_capture(playing, &mut input)?
    } else {
        files::read_chunks(playing, &mut input)?;
        None
    };
    print_chain(playing, look, u16::try_from(o.lamps).unwrap_or(0))?;
    Ok(refusal)
}

// Says what a picture does not show: that a line or a telegram was refused.
fn say_refused(voice: Voice, raw: bool) {
    voice.say(if raw {
        Complaint::TelegramRefused
    } else {
        Complaint::LineRefused
    });
}

// Says what is not printed of a capture of which nothing is printed: that a telegram may be an answer, and where it was refused.
fn say_silent(voice: Voice, either: bool, position: u64, refusal: Option<Refusal>) {
    if either {
        voice.say(Complaint::Either);
    }
    if let Some(e) = refusal {
        voice.say(Complaint::Stopped(position, e));
    }
}

// Says what is not printed of a run that came to its end. Answers the status.
fn conclude<R>(voice: Voice, playing: &Playing<R>, raw: bool, refusal: Option<Refusal>) -> Status {
    if playing.run.refused && voice.subcommand == Subcommand::Board {
        say_refused(voice, raw);
    }
    if playing.style == Style::Silent {
        say_silent(voice, playing.run.either, playing.run.done, refusal);
    }
    Status::of(playing.run.refused || refusal.is_some())
}

// How many bytes of memory are enough for the largest chain.
const LARGEST_CHAIN: usize = 16384;

// The script or the capture, then the chain. Answers the status.
fn show<R: Files + Input + Print>(
    rt: &R,
    o: &ChainOptions,
    style: Style,
    look: Look,
    voice: Voice,
) -> Status {
    let mut memory = [0u8; LARGEST_CHAIN];
    let mut room = io::large_buffer();
    if let Err(e) = chain::make(&mut memory, o.lamps as usize, o.defaults) {
        return voice.say(Complaint::Refused(e));
    }
    let mut playing = Playing::over(Output::over(rt, &mut room), &mut memory, style);
    match play(rt, &mut playing, o, look) {
        Ok(refusal) => conclude(voice, &playing, o.raw, refusal),
        Err(stop) => stop.say(voice, o.options.file),
    }
}

// What a replay prints of each line.
fn style_of(o: Options) -> Style {
    if o.quiet {
        return Style::Silent;
    }
    if o.json { Style::Json } else { Style::Text }
}

// How a replay shows the chain.
fn look_of(o: Options) -> Look {
    if o.json { Look::Objects } else { Look::Table }
}

// The subcommand replay, on the words behind its name. Answers its status.
pub fn replay_file<R: Files + Input + Print>(rt: &R, line: &[u8], err: i32) -> Status {
    let voice = Voice::new(err, Subcommand::Replay);
    match chain_options(line, Subcommand::Replay) {
        Ok(o) => show(rt, &o, style_of(o.options), look_of(o.options), voice),
        Err(wrong) => voice.say(Complaint::InOptions(wrong)),
    }
}

// The subcommand board: a picture, and nothing of the lines.
pub fn draw<R: Files + Input + Print>(rt: &R, line: &[u8], err: i32) -> Status {
    let voice = Voice::new(err, Subcommand::Board);
    match chain_options(line, Subcommand::Board) {
        Ok(o) => show(rt, &o, Style::Silent, Look::Picture, voice),
        Err(wrong) => voice.say(Complaint::InOptions(wrong)),
    }
}
