// A raw capture read from its file as it arrives, and each telegram of it done on a chain, in constant memory. The crate `capture` says how
// far its telegrams are whole, `script` does them as those of a script.
#![tactic(auto)]

use capture::{Phase, Reading};
use files::{Chunks, Stop};
use lines::Holds;
use script::Playing;
use std::io::Read;
use telegram::Refusal;

// A capture that is being done: where it is done, and what the reading remembers.
#[derive(Drop)]
struct Walk<'b, 'r, 'a, R> {
    playing: &'b mut Playing<'r, 'a, R>,
    reading: Reading,
}

// The refusal that stopped a reading, if one did.
fn refusal_of(reading: Reading) -> Option<Refusal> {
    match reading.phase {
        Phase::Stopped(e) => Some(e),
        Phase::Open | Phase::Ended => None,
    }
}

// The reading behind a chunk, or where it stopped. Each telegram takes a byte of the chunk at least. (`capture::scan_chunk` gives the same,
// but goes byte by byte. `dump` has a loop of its own, which lists each telegram: one for both, over a trait, would be longer than two.)
fn read_chunk(s: &[u8], before: Reading) -> Reading {
    let mut reader = capture::over_chunk(s, before);
    for _ in 0..s.len() {
        reader = capture::advanced(reader, capture::read_next(reader));
        if reader.at == s.len() || !matches!(reader.carried.phase, Phase::Open) {
            return reader.carried;
        }
    }
    reader.carried
}

impl<'b, 'r, 'a, R: Print> Walk<'b, 'r, 'a, R> {
    // Reads the capture up to its end. Answers its refusal, if it was refused.
    fn read<I: Read>(&mut self, input: &mut I) -> Result<Option<Refusal>, Stop> {
        files::read_chunks(self, input)?;
        Ok(refusal_of(self.reading))
    }

    // Tells where the reading stopped by a refusal, if it did, also on a page that could not be written.
    fn tell_refusal(&mut self) -> Result<(), Stop> {
        let Some(e) = refusal_of(self.reading) else {
            return Ok(());
        };
        let written = self.playing.output.make_room();
        let style = self.playing.style;
        lines::put_stopped(
            &mut self.playing.output.page,
            style,
            self.reading.position,
            e,
        );
        written
    }
}

impl<'b, 'r, 'a, R: Print> Chunks for Walk<'b, 'r, 'a, R> {
    // Does the telegrams that are whole.
    fn take_chunk(&mut self, s: &[u8], have: usize) -> Result<Option<usize>, Stop> {
        let before = self.reading.position;
        self.reading = read_chunk(text::from(s, have), self.reading);
        let whole = self.reading.position.wrapping_sub(before) as usize;
        let done = self
            .playing
            .do_lines(text::first(s, whole), Holds::Telegrams);
        self.tell_refusal()?;
        done?;
        if !matches!(self.reading.phase, Phase::Open) {
            return Ok(None);
        }
        Ok(Some(whole))
    }

    // The end of the file is that of the capture.
    fn take_end(&mut self, _carried: &[u8]) -> Result<(), Stop> {
        self.reading = capture::end_run(self.reading).reading;
        self.tell_refusal()
    }

    fn flush(&mut self) -> Result<(), Stop> {
        self.playing.output.flush()
    }
}

// Does a capture, from an input that is open. Answers the refusal of the capture itself, if it was refused.
pub fn do_capture<R: Print, I: Read>(
    playing: &mut Playing<R>,
    input: &mut I,
) -> Result<Option<Refusal>, Stop> {
    let mut walk = Walk {
        playing,
        reading: capture::resting(Phase::Open, 0),
    };
    walk.read(input)
}
