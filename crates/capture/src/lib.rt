// Captures as they arrive, document 02, request 01: telegrams read from chunks that are cut anywhere.
#![tactic(auto)]

mod chunk;
mod gather;
mod state;
mod whole_chunk;

ghost use Rattle.std.specs.Prelude.{◌≡◌};
ghost use Rattle.capture.specs.State.{state_of, standing_of};
ghost use Rattle.capture.specs.Run.{left_over};
ghost use Rattle.capture.specs.Calls.{answer_as, answer_of, next_as, nexting, closing_as, closing, scan_as, scanning};

pub use chunk::{Reader, advanced, over_chunk, read_next};
use gather::{bare, next_open};
pub use state::{is_left, resting};
use telegram::{Refusal, Telegram};
use whole_chunk::scan_open;

// Whether a reading goes on: open, ended, or stopped by a refusal. An enum of its own: a standing that is kept, no answer of a call, so a
// Result would say less.
#[derive(Clone, Copy)]
pub enum Phase {
    Open,
    Ended,
    Stopped(Refusal),
}

// What a reading remembers from one chunk to the next: the bytes of an unfinished telegram, up to 11 and zeros behind them (the twelfth
// place is for the byte that completes the longest one), and the position of the first byte that belongs to no telegram given so far.
// Memory is fixed, here and in `Next`: no heap in the library.
#[derive(Clone, Copy)]
pub struct Reading {
    pub phase: Phase,
    pub count: usize,
    pub position: u64,
    pub bytes: [u8; 12],
}

// What a call gives that refuses nothing: a telegram, that more bytes are needed, or that the run is done.
#[derive(Clone, Copy)]
pub enum Reply {
    Telegram(Telegram),
    More,
    Ended,
}

// The next telegram of a chunk: its bytes with zeros behind them, the index from which the next call reads on, and the reading after it.
#[derive(Clone, Copy)]
pub struct Next {
    pub answer: Result<Reply, Refusal>,
    pub bytes: [u8; 12],
    pub at: usize,
    pub reading: Reading,
}

// The end of a run.
#[derive(Clone, Copy)]
pub struct Closing {
    pub answer: Result<Reply, Refusal>,
    pub reading: Reading,
}

// A whole chunk: how many telegrams it completed, the position of the first byte that belongs to none, and the reading after it.
#[derive(Clone, Copy)]
pub struct Scan {
    pub answer: Result<Reply, Refusal>,
    pub telegrams: usize,
    pub position: u64,
    pub reading: Reading,
}

// The answer that a reading repeats.
pub(crate) fn answer_of(phase: Phase) -> Result<Reply, Refusal>
    ensures { answer_as result ≡ answer_of (standing_of phase) }
{
    match phase {
        Phase::Open => Ok(Reply::More),
        Phase::Ended => Ok(Reply::Ended),
        Phase::Stopped(e) => Err(e),
    }
}

// The next telegram of a chunk, from the index `at` on. A state that no reading leaves gives 11 and stays.
pub fn next_at(chunk: &[u8], carried: Reading, at: usize) -> Next
    ensures { next_as result ≡ nexting chunk.now (state_of carried) at }
{
    if !is_left(carried) {
        return bare(Err(Refusal::NoChain), at, carried);
    }
    let Phase::Open = carried.phase else {
        return bare(answer_of(carried.phase), at, carried);
    };
    next_open(chunk, carried, at)
}

// What the end of the run makes of an open reading.
fn left_over(count: usize) -> Phase
    ensures { standing_of result ≡ left_over count }
{
    if count == 0 {
        return Phase::Ended;
    }
    if count < 4 {
        return Phase::Stopped(Refusal::TooShort);
    }
    Phase::Stopped(Refusal::ByteCount)
}

// The run has ended. Leftover bytes are refused with 1 or 4; 11 as above.
pub fn end_run(carried: Reading) -> Closing
    ensures { closing_as result ≡ closing (state_of carried) }
{
    if !is_left(carried) {
        return Closing {
            answer: Err(Refusal::NoChain),
            reading: carried,
        };
    }
    let Phase::Open = carried.phase else {
        return Closing {
            answer: answer_of(carried.phase),
            reading: carried,
        };
    };
    let last = left_over(carried.count);
    Closing {
        answer: answer_of(last),
        reading: resting(last, carried.position),
    }
}

// Reads a whole chunk; 11 as above, without a position.
pub fn scan_chunk(chunk: &[u8], carried: Reading) -> Scan
    ensures { scan_as result ≡ scanning chunk.now (state_of carried) }
{
    if !is_left(carried) {
        return still_scan(Err(Refusal::NoChain), 0, carried);
    }
    let Phase::Open = carried.phase else {
        return still_scan(answer_of(carried.phase), carried.position, carried);
    };
    let t = scan_open(chunk, carried);
    Scan {
        answer: answer_of(t.reading.phase),
        telegrams: t.telegrams,
        position: t.position,
        reading: t.reading,
    }
}

// A chunk of which nothing is read.
fn still_scan(answer: Result<Reply, Refusal>, position: u64, reading: Reading) -> Scan
    ensures { scan_as result ≡ record { answer = answer_as answer; telegrams = 0; position = position; state = state_of reading } }
{
    Scan {
        answer,
        telegrams: 0,
        position,
        reading,
    }
}
