// What the tool says when something is wrong: one line, "osp: SUBCOMMAND: ..", on a descriptor for errors.
#![tactic(auto)]

ghost use Rattle.std.specs.Prelude.{◌≡◌};

mod complaints;
mod kinds;

pub use complaints::{Complaint, WrongOption};
pub use kinds::{Status, Subcommand};
use std::fmt::Write;
use std::io::Error;
use text::Page;

// How a subcommand says what is wrong: each line begins with its name and goes to a descriptor. (Who calls a subcommand gives it the
// descriptor alone, since it knows its own name.)
#[derive(Clone, Copy)]
pub struct Voice {
    pub err: i32,
    pub subcommand: Subcommand,
}

impl Voice {
    // The voice of a subcommand, whose lines go to a descriptor.
    pub fn new(err: i32, subcommand: Subcommand) -> Voice
        ensures { (result.err ≡ err) × (result.subcommand ≡ subcommand) }
    {
        Voice { err, subcommand }
    }

    // Says what is wrong. Answers the status.
    pub fn say(self, what: Complaint) -> Status {
        let mut line = [0u8; 256];
        let mut page = Page::over(&mut line);
        self.put_start(&mut page);
        complaints::put_complaint(&mut page, what, self.subcommand);
        page.put_byte(b'\n');
        page.say(self.err);
        complaints::status_of(what)
    }

    // Says what the system says of a name: the error of a number. That part always goes to standard error.
    pub fn say_error(self, name: &[u8], number: i32) -> Status {
        let mut line = [0u8; 256];
        let mut page = Page::over(&mut line);
        self.put_start(&mut page);
        page.say(self.err);
        page.clear();
        complaints::put_plain(&mut page, name);
        page.put(b": ");
        put_error(&mut page, number);
        page.put_byte(b'\n');
        page.say(text::ERR);
        Status::Wrong
    }

    // Says that standard output does not take what is printed.
    pub fn say_unwritten(self, number: i32) -> Status {
        self.say_error(b"cannot write", number)
    }

    // Ends what a subcommand prints: writes its last bytes. The status is Wrong where they cannot be written.
    pub fn finish<R: Print>(self, rt: &R, printed: &[u8], status: Status) -> Status {
        match rt.write_all(printed) {
            Ok(()) => status,
            Err(e) => self.say_unwritten(text::number_of(&e)),
        }
    }

    // Puts "osp: SUBCOMMAND: ".
    fn put_start(self, page: &mut Page) {
        let _ = write!(page, "osp: {}: ", self.subcommand);
    }
}

// Appends what the system says of the error of a number, without the number, which stands in brackets behind it.
fn put_error(page: &mut Page, number: i32) {
    let mut room = [0u8; 128];
    let mut told = Page::over(&mut room);
    let _ = write!(told, "{}", Error::from_raw_os_error(number));
    let said = told.written();
    let end = text::find(said, 0, said.len(), b'(');
    page.put(text::first(said, end.saturating_sub(1)));
}
