// The page that is printed while a file is read, and why that stops before its end.
use complaint::{Complaint, Status, Voice};
use text::Page;

// Why it stops: a malformed line of a script, or what could not be read or written, with the system's number of the error.
// (The number and not std's Error, which has room for words: no more is told of it, and each line of a replay answers a Result of this.)
#[derive(Clone, Copy)]
pub enum Stop {
    Malformed(u64),
    Unread(i32),
    Unwritten(i32),
}

impl Stop {
    // Says it of a file. Answers the status.
    pub fn say(self, voice: Voice, file: &[u8]) -> Status {
        match self {
            Stop::Malformed(line) => voice.say(Complaint::Malformed(line)),
            Stop::Unread(number) => voice.say_error(file, number),
            Stop::Unwritten(number) => voice.say_unwritten(number),
        }
    }
}

// A page that is written to where it is printed before it is full.
#[derive(Drop)]
pub struct Output<'r, 'a, R> {
    rt: &'r R,
    pub page: Page<'a>,
}

impl<'r, 'a, R: Print> Output<'r, 'a, R> {
    // A page over a buffer, with nothing on it.
    pub fn over(rt: &'r R, room: &'a mut [u8]) -> Output<'r, 'a, R> {
        Output {
            rt,
            page: Page::over(room),
        }
    }

    // Writes what is on the page, which begins anew. Where it cannot be written it stays.
    pub fn flush(&mut self) -> Result<(), Stop> {
        self.page
            .flush(self.rt)
            .map_err(|e| Stop::Unwritten(text::number_of(&e)))?;
        self.page.clear();
        Ok(())
    }

    // Ends what a subcommand prints: writes the last bytes. The status is Wrong where they cannot be written.
    pub fn finish(&self, voice: Voice, status: Status) -> Status {
        voice.finish(self.rt, self.page.written(), status)
    }

    // Writes the page where less than 4 KiB of it are free, more than what is printed at once takes.
    pub fn make_room(&mut self) -> Result<(), Stop> {
        if self.page.used < 61440 {
            return Ok(());
        }
        self.flush()
    }
}
