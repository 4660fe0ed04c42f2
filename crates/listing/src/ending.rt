// The last line of a capture that is listed: where it ended or stopped, and how many telegrams there were.
use crate::Form;
use std::fmt;
use std::fmt::Write;
use telegram::Refusal;
use text::Page;
use verdict::Verdict;
use words::{InWords, put_number};

// How many telegrams there were, and how many of them were commands, answers, either and neither.
#[derive(Clone, Copy, Default)]
pub struct Tally {
    pub telegrams: u64,
    pub commands: u64,
    pub answers: u64,
    pub either: u64,
    pub neither: u64,
}

impl Tally {
    // Counts a telegram more.
    pub fn count(&mut self, v: Verdict) {
        self.telegrams = self.telegrams.wrapping_add(1);
        match v {
            Verdict::Sent(_) => self.commands = self.commands.wrapping_add(1),
            Verdict::Given(_) => self.answers = self.answers.wrapping_add(1),
            Verdict::Either(_) => self.either = self.either.wrapping_add(1),
            Verdict::Unread(_) | Verdict::Neither(_, _) => {
                self.neither = self.neither.wrapping_add(1);
            }
        }
    }
}

// How a capture ended, or stopped by a refusal: where, and the telegrams before that; with `quiet` without the counts.
#[derive(Clone, Copy)]
pub struct Ending {
    pub quiet: bool,
    pub position: u64,
    pub tally: Tally,
    pub refusal: Option<Refusal>,
}

// So many things of a name, with an s but for one.
#[derive(Clone, Copy)]
struct Things(u64, &'static str);

impl fmt::Display for Things {
    fn fmt<W: fmt::Write>(&self, f: &mut fmt::Formatter<W>) -> fmt::Result {
        write!(f, "{} {}{}", self.0, self.1, plural(self.0))
    }
}

// The end of a word for so many things.
pub(crate) fn plural(n: u64) -> &'static str {
    if n == 1 { "" } else { "s" }
}

// Appends the last line of a capture.
pub fn put_end(page: &mut Page, form: Form, e: Ending) {
    match form {
        Form::Text => put_line(page, e),
        Form::Json => put_object(page, e),
    }
}

// Appends the line. The refusal stands in it where the counts do not.
fn put_line(page: &mut Page, e: Ending) {
    let position = e.position;
    let telegrams = Things(e.tally.telegrams, "telegram");
    let _ = match e.refusal {
        None => write!(page, "ended at position {position}: {telegrams}"),
        Some(_) => write!(
            page,
            "stopped at position {position}: {telegrams} before it"
        ),
    };
    if !e.quiet {
        put_counts(page, e.tally);
    } else if let Some(refusal) = e.refusal {
        let _ = write!(page, ", {}", InWords(refusal));
    }
    page.put_byte(b'\n');
}

// Appends the counts, of those that are either only where there are any.
fn put_counts(page: &mut Page, t: Tally) {
    let _ = write!(
        page,
        " ({}, {}, ",
        Things(t.commands, "command"),
        Things(t.answers, "answer")
    );
    if t.either != 0 {
        let _ = write!(page, "{} either, ", t.either);
    }
    let _ = write!(page, "{} neither)", t.neither);
}

// Appends the object.
fn put_object(page: &mut Page, e: Ending) {
    let t = e.tally;
    let ending = if e.refusal.is_none() {
        "ended"
    } else {
        "stopped"
    };
    let _ = write!(
        page,
        "{{\"{ending}\":{},\"telegrams\":{},",
        e.position, t.telegrams
    );
    if !e.quiet {
        let _ = write!(
            page,
            "\"commands\":{},\"answers\":{},\"either\":{},\"neither\":{},",
            t.commands, t.answers, t.either, t.neither
        );
    }
    put_number(page, e.refusal);
    page.put(b"}\n");
}
