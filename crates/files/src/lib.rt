// A file that a subcommand reads as it arrives, in constant memory: how it is opened, how it is read chunk by chunk, and the page that is
// printed meanwhile.
#![tactic(auto)]

mod carried;
mod opened;
mod output;

use carried::Carried;
pub use opened::{Opened, open_file};
pub use output::{Output, Stop};
use std::io::Read;

// What is done with a file as it arrives.
pub trait Chunks {
    // Does what is whole in bytes of which the first `have` were carried. Answers where the rest begins, which is carried in turn, or
    // none where nothing more is to be read.
    fn take_chunk(&mut self, s: &[u8], have: usize) -> Result<Option<usize>, Stop>;

    // Does what is left at the end of the file: the bytes that were carried.
    fn take_end(&mut self, carried: &[u8]) -> Result<(), Stop>;

    // Writes what is on the page.
    fn flush(&mut self) -> Result<(), Stop>;
}

// One turn: reads once, does what is whole and carries the rest. Answers whether more is to be read.
fn turn<C: Chunks, I: Read>(
    to: &mut C,
    input: &mut I,
    carried: &mut Carried,
) -> Result<bool, Stop> {
    let have = carried.count;
    if carried.read_more(input)? == 0 {
        to.take_end(carried.bytes())?;
        return Ok(false);
    }
    let Some(rest) = to.take_chunk(carried.bytes(), have)? else {
        return Ok(false);
    };
    carried.keep_from(rest);
    Ok(true)
}

// Reads a file that is open up to its end, or until what is done with it stops. The page is written after each turn. (A loop is proved to
// end, so this one counts its turns: no file has so many.)
pub fn read_chunks<C: Chunks, I: Read>(to: &mut C, input: &mut I) -> Result<(), Stop> {
    let mut room = io::large_buffer();
    let mut carried = Carried::over(&mut room);
    for _ in 0..u64::MAX {
        let more = turn(to, input, &mut carried);
        to.flush()?;
        if !more? {
            return Ok(());
        }
    }
    Err(Stop::Unread(text::FAILED))
}
