// A raw capture read from its file and listed, chunk by chunk.
use capture::{Phase, Reader, Reading, Reply};
use complaint::{Status, Voice};
use files::{Chunks, Output, Stop};
use listing::{Ending, Form, Piece, Tally};
use options::Options;
use std::rt::Files;
use telegram::Refusal;
use text::Page;

// A capture that is listed: what is printed, with `quiet` the last line alone; what the reading of the capture remembers, the telegrams so
// far, and the refusal that stopped it, if one did.
#[derive(Drop)]
pub(crate) struct Listing<'r, 'a, R> {
    output: Output<'r, 'a, R>,
    form: Form,
    quiet: bool,
    reading: Reading,
    tally: Tally,
    refusal: Option<Refusal>,
}

impl<'r, 'a, R: Print> Listing<'r, 'a, R> {
    // A listing at its start.
    pub(crate) fn over(output: Output<'r, 'a, R>, o: &Options) -> Listing<'r, 'a, R> {
        Listing {
            output,
            form: if o.json { Form::Json } else { Form::Text },
            quiet: o.quiet,
            reading: capture::resting(Phase::Open, 0),
            tally: Tally::default(),
            refusal: None,
        }
    }

    // Lists a telegram, also on a page that could not be written, of which room is left for one.
    fn list_telegram(&mut self, bytes: &[u8]) -> Result<(), Stop> {
        let written = self.output.make_room();
        let piece = Piece {
            position: self.reading.position,
            bytes,
        };
        let v = verdict::judge(bytes);
        self.tally.count(v);
        listing::put_telegram(&mut self.output.page, self.form, piece, v);
        written
    }

    // Lists the refused telegram by its first bytes, twelve at most: those that the reading carried, and those behind them. With `quiet`
    // nothing is listed, since the last line tells the refusal.
    fn list_refused(&mut self, e: Refusal, rest: &[u8]) -> Result<(), Stop> {
        let written = self.output.make_room();
        self.refusal = Some(e);
        if self.quiet {
            return written;
        }
        let mut room = [0u8; 12];
        let mut there = Page::over(&mut room);
        there.put(text::first(&self.reading.bytes, self.reading.count));
        let missing = 12usize.wrapping_sub(there.used);
        there.put(text::first(rest, missing));
        let piece = Piece {
            position: self.reading.position,
            bytes: there.written(),
        };
        listing::put_refused(&mut self.output.page, self.form, piece, e);
        written
    }

    // Lists the next telegram of a chunk. Answers the reader behind it.
    fn list_next<'s>(&mut self, reader: Reader<'s>) -> Result<Reader<'s>, Stop> {
        let next = capture::read_next(reader);
        match next.answer {
            Ok(Reply::Telegram(t)) => self.list_telegram(text::first(
                &next.bytes,
                t.size.wrapping_add(4),
            ))?,
            Ok(Reply::More | Reply::Ended) => {}
            Err(e) => self.list_refused(e, text::from(reader.chunk, reader.at))?,
        }
        self.reading = next.reading;
        Ok(capture::advanced(reader, next))
    }

    // Lists each telegram of a chunk. Each takes a byte of it at least.
    fn list_chunk(&mut self, s: &[u8]) -> Result<(), Stop> {
        let mut reader = capture::over_chunk(s, self.reading);
        for _ in 0..s.len() {
            reader = self.list_next(reader)?;
            if reader.at == s.len() || self.refusal.is_some() {
                return Ok(());
            }
        }
        Ok(())
    }

    // Counts the telegrams of a chunk.
    fn count_chunk(&mut self, s: &[u8]) {
        let scan = capture::scan_chunk(s, self.reading);
        self.reading = scan.reading;
        self.tally.telegrams = self.tally.telegrams.wrapping_add(scan.telegrams as u64);
        self.refusal = scan.answer.err();
    }

    // Ends a listing with its last line. Answers the status.
    pub(crate) fn finish(&mut self, voice: Voice) -> Status {
        let ending = Ending {
            quiet: self.quiet,
            position: self.reading.position,
            tally: self.tally,
            refusal: self.refusal,
        };
        listing::put_end(&mut self.output.page, self.form, ending);
        self.output
            .finish(voice, Status::of(self.refusal.is_some()))
    }
}

impl<'r, 'a, R: Print> Chunks for Listing<'r, 'a, R> {
    // The reading of the capture carries what is not whole, so that no rest is left.
    fn take_chunk(&mut self, s: &[u8], _have: usize) -> Result<Option<usize>, Stop> {
        if self.quiet {
            self.count_chunk(s);
        } else {
            self.list_chunk(s)?;
        }
        Ok(if self.refusal.is_none() {
            Some(s.len())
        } else {
            None
        })
    }

    // The end of the file is that of the capture.
    fn take_end(&mut self, _carried: &[u8]) -> Result<(), Stop> {
        match capture::end_run(self.reading).answer {
            Ok(_) => Ok(()),
            Err(e) => self.list_refused(e, b""),
        }
    }

    fn flush(&mut self) -> Result<(), Stop> {
        self.output.flush()
    }
}

// Lists a file up to its last line.
pub(crate) fn list<R: Files + Input + Print>(
    rt: &R,
    listing: &mut Listing<R>,
    name: &[u8],
) -> Result<(), Stop> {
    let mut input = files::open_file(rt, name)?;
    files::read_chunks(listing, &mut input)
}
