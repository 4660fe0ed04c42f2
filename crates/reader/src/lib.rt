// The reader of a capture over lent memory: document 02, request 01, as C callers use it. What each function returns is a number of the
// paper and a count in one.
// That memory has the 21 bytes of a state stands in the contract of each private function that reads or writes one. `&mut [u8; 21]`, by
// `first_chunk_mut`, would say it in a type. But the definitions speak of the whole lent slice, behind whose state every byte stays, so that
// each proof would put the two parts together again: no plainer.
#![tactic(auto)]

mod found;
mod kept;
mod passing;

ghost use Rattle.std.specs.Prelude.{◌≡◌, ◌≤◌, length};
ghost use Rattle.telegram.specs.Numbers.{leaves, number_of, reason_of, value_of};
ghost use Rattle.capture.specs.State.{state_of};
ghost use Rattle.reader.specs.Layout.{reader_size};
ghost use Rattle.reader.specs.Interface.{returned, kept_by, reader_next, reader_end, reader_position};

use capture::Reply;
use found::{read_likely_open, read_state};
use kept::{Kept, keep, keep_carried};
use passing::{pass, read_whole};
use telegram::Refusal;

// Keeps what a refusal leaves: the reader's own stops it. Of 11 nothing is written: what memory holds may lie where nothing can be written.
fn refuse_kept(e: Refusal, left: Kept, reader: &mut [u8]) -> u32
    requires { reader_size ≤ length reader.old }
    ensures value { result ≡ value_of (reason_of e) }
    ensures reader_after { reader.new ≡ kept_by (number_of e) (state_of left.reading) reader.old }
{
    let value = telegram::refusal_value(e);
    if telegram::refusal_number(e) == 11 {
        return value;
    }
    keep(left, reader);
    value
}

// The next telegram of a chunk, whatever is carried. The bytes of a telegram are copied for speed: lent from `n` itself, at a length that
// varies, they put all of `n` in memory, and chunks of one byte took 23 % longer.
fn next_carried(reader: &mut [u8], chunk: &[u8], at: &mut usize, out: &mut [u8]) -> u32
    ensures value { result ≡ returned (reader_next reader.old chunk.now at.old (length out.old)).outcome }
    ensures reader_after { reader.new ≡ (reader_next reader.old chunk.now at.old (length out.old)).memory }
    ensures at_after { at.new ≡ (reader_next reader.old chunk.now at.old (length out.old)).at }
    ensures out_after { out.new ≡ leaves (reader_next reader.old chunk.now at.old (length out.old)).outcome out.old }
{
    let Some(carried) = read_likely_open(reader) else {
        return 11;
    };
    let n = capture::next_at(chunk, carried, *at);
    match n.answer {
        Ok(Reply::Telegram(t)) => {
            let total = 4 + t.size;
            if out.len() < total {
                return 9;
            }
            let bytes = n.bytes;
            out[..total].copy_from_slice(&bytes[..total]);
            keep(Kept { reading: n.reading }, reader);
            *at = n.at;
            total as u32 * 256
        }
        Ok(Reply::More) => {
            keep_carried(Kept { reading: n.reading }, reader);
            *at = n.at;
            0
        }
        Ok(Reply::Ended) => {
            keep(Kept { reading: n.reading }, reader);
            *at = n.at;
            0
        }
        Err(e) => refuse_kept(e, Kept { reading: n.reading }, reader),
    }
}

// The next telegram of a chunk: 11, the reader's own refusals, then 9.
pub fn next_telegram(reader: &mut [u8], chunk: &[u8], at: &mut usize, out: &mut [u8]) -> u32
    ensures value { result ≡ returned (reader_next reader.old chunk.now at.old (length out.old)).outcome }
    ensures reader_after { reader.new ≡ (reader_next reader.old chunk.now at.old (length out.old)).memory }
    ensures at_after { at.new ≡ (reader_next reader.old chunk.now at.old (length out.old)).at }
    ensures out_after { out.new ≡ leaves (reader_next reader.old chunk.now at.old (length out.old)).outcome out.old }
{
    match read_whole(reader, chunk, *at) {
        Some(t) => pass(t, chunk, reader, at, out),
        None => next_carried(reader, chunk, at, out),
    }
}

// The end of the run: 11, then the reader's own refusals.
pub fn end_capture(reader: &mut [u8]) -> u32
    ensures value { result ≡ returned (reader_end reader.old).outcome }
    ensures reader_after { reader.new ≡ (reader_end reader.old).memory }
{
    let Some(carried) = read_state(reader) else {
        return 11;
    };
    let c = capture::end_run(carried);
    let left = Kept { reading: c.reading };
    match c.answer {
        Ok(_) => {
            keep(left, reader);
            0
        }
        Err(e) => refuse_kept(e, left, reader),
    }
}

// The position; 0 where the other functions give 11.
pub fn position_of(reader: &[u8]) -> u64
    ensures { result ≡ reader_position reader.now }
{
    let Some(reading) = read_state(reader) else {
        return 0;
    };
    if capture::is_left(reading) {
        reading.position
    } else {
        0
    }
}
