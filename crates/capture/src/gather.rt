// The next telegram of an open reading, from the bytes carried and those of the chunk.
// That a reading is open and that some reading leaves its state stand in four contracts of this crate. `next_at` takes every `Reading` and
// answers 11 for the others, so a type of its own for them would be made of one and turned into one at each call: no plainer.
ghost use Rattle.std.specs.Prelude.{◌≡◌, ◌+◌, ◌-◌, ◌<◌, ◌≤◌, true, ◌++◌, length, take, drop};
ghost use Rattle.telegram.specs.Numbers.{refused_for, reason_of};
ghost use Rattle.telegram.specs.Telegram.{reading};
ghost use Rattle.frame.specs.Frame.{incomplete, cutting};
ghost use Rattle.capture.specs.State.{state_of, standing_of, stopped_for, going, padded, is_left, resting as resting_at};
ghost use Rattle.capture.specs.Calls.{answer_as, next_as, without, next_judged, next_cut, next_by};

use crate::state::resting;
use crate::{Next, Phase, Reading, Reply};
use frame::Cut;
use telegram::Refusal;

// Twelve bytes with those of a slice put over them from an index on. (By value, since the bytes carried stay as they are.)
pub(crate) fn placed(into: [u8; 12], at: usize, s: &[u8]) -> [u8; 12]
    requires { at + length s.now ≤ 12 }
    ensures { result ≡ (take at into ++ s.now) ++ drop (at + length s.now) into }
{
    let mut bytes = into;
    bytes[at..at + s.len()].copy_from_slice(s);
    bytes
}

// An answer without a telegram.
pub(crate) fn bare(answer: Result<Reply, Refusal>, at: usize, reading: Reading) -> Next
    ensures { next_as result ≡ without (answer_as answer) at (state_of reading) }
{
    Next {
        answer,
        bytes: [0; 12],
        at,
        reading,
    }
}

// A refusal stops the reading at its telegram's first byte, and leaves the index where it was.
fn stop(e: Refusal, position: u64, at: usize) -> Next
    ensures { next_as result ≡ without (refused_for (reason_of e)) at (resting_at (stopped_for (reason_of e)) position) }
{
    bare(Err(e), at, resting(Phase::Stopped(e), position))
}

// A whole telegram, of which the first `count` bytes were carried.
#[tactic(auto, using(crate::proofs::Padding::padded_over))]
fn next_whole(s: &[u8], carried: Reading, at: usize) -> Next
    requires { (carried.count ≤ length s.now) × (length s.now ≤ 12) × (at + (length s.now - carried.count) < 18446744073709551616) }
    ensures { next_as result ≡ next_judged (reading s.now) s.now (length s.now) (state_of carried) at }
{
    let r = telegram::read_telegram(s);
    let Ok(t) = r else {
        return stop(telegram::refusal_of(r), carried.position, at);
    };
    let k = s.len();
    Next {
        answer: Ok(Reply::Telegram(t)),
        bytes: placed([0; 12], 0, s),
        at: at + (k - carried.count),
        reading: resting(Phase::Open, carried.position.wrapping_add(k as u64)),
    }
}

// What the first `n` bytes give, from a telegram's first on, of which the first `count` were carried; those behind them are zero.
fn next_in(bytes: [u8; 12], n: usize, carried: Reading, at: usize) -> Next
    requires { (carried.count ≤ n) × (n ≤ 12) × (padded (take n bytes) ≡ bytes) × (cutting (take carried.count bytes) ≡ incomplete) × (at + (n - carried.count) < 18446744073709551616) }
    ensures { next_as result ≡ next_cut (cutting (take n bytes)) (take n bytes) (n - carried.count) (state_of carried) at }
{
    match frame::cut_first(&bytes[..n]) {
        Cut::Incomplete => Next {
            answer: Ok(Reply::More),
            bytes: [0; 12],
            at: at + (n - carried.count),
            reading: Reading {
                phase: Phase::Open,
                count: n,
                position: carried.position,
                bytes,
            },
        },
        Cut::Broken(e) => stop(e, carried.position, at),
        Cut::Whole(k) => next_whole(&bytes[..k], carried, at),
    }
}

// The next telegram where the chunk has bytes left: the bytes carried with those behind them, twelve at most.
fn next_across(chunk: &[u8], carried: Reading, at: usize) -> Next
    requires { (is_left (state_of carried) ≡ true) × (standing_of carried.phase ≡ going) × (at < length chunk.now) }
    ensures { next_as result ≡ next_by going (drop at chunk.now) (state_of carried) at }
{
    let m = (12 - carried.count).min(chunk.len() - at);
    let bytes = placed(carried.bytes, carried.count, &chunk[at..at + m]);
    next_in(bytes, carried.count + m, carried, at)
}

// The next telegram of an open reading.
pub(crate) fn next_open(chunk: &[u8], carried: Reading, at: usize) -> Next
    requires { (is_left (state_of carried) ≡ true) × (standing_of carried.phase ≡ going) }
    ensures { next_as result ≡ next_by going (drop at chunk.now) (state_of carried) at }
{
    if chunk.len() <= at {
        return bare(Ok(Reply::More), at, carried);
    }
    next_across(chunk, carried, at)
}
