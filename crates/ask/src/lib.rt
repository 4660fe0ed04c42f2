// The subcommands that answer from the command table: build, info and help. docs/TOOL.md has the forms. Each takes the words behind its
// name, separated by a byte 0, and a descriptor for errors, and answers its status.
#![tactic(auto)]

pub mod build;
mod commands;
pub mod info;
mod pages;

use complaint::{Complaint, Status, Subcommand, Voice};

// Prints how the subcommands are called.
pub fn help<R: Print>(rt: &R, word: &[u8], err: i32) -> Status {
    let voice = Voice::new(err, Subcommand::Help);
    match pages::page_of(word) {
        Some(page) => voice.finish(rt, page.as_bytes(), Status::Done),
        None => voice.say(Complaint::NoSubcommand(word)),
    }
}
