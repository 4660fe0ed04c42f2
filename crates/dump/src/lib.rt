// osp dump: a raw capture, listed telegram by telegram as it arrives, in constant memory. docs/TOOL.md has the forms.
#![tactic(auto)]

mod walk;

use complaint::{Complaint, Status, Subcommand, Voice};
use files::Output;
use options::{Options, dump_options};
use std::rt::Files;
use walk::{Listing, list};

// Lists a file, and ends with the last line. Answers the status.
fn list_file<R: Files + Input + Print>(rt: &R, o: &Options, voice: Voice) -> Status {
    let mut room = io::large_buffer();
    let mut listing = Listing::over(Output::over(rt, &mut room), o);
    match list(rt, &mut listing, o.file) {
        Ok(()) => listing.finish(voice),
        Err(stop) => stop.say(voice, o.file),
    }
}

// The subcommand, on the words behind its name. Answers its status.
pub fn dump_file<R: Files + Input + Print>(rt: &R, line: &[u8], err: i32) -> Status {
    let voice = Voice::new(err, Subcommand::Dump);
    match dump_options(line) {
        Ok(o) => list_file(rt, &o, voice),
        Err(wrong) => voice.say(Complaint::InOptions(wrong)),
    }
}
