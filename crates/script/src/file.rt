// A script read from its file: chunk by chunk, with what is not a whole line yet carried.
use crate::Playing;
use files::{Chunks, Stop};
use lines::{Holds, LONGEST_LINE};

impl<'r, 'a, R: Print> Chunks for Playing<'r, 'a, R> {
    // A line that is not whole is malformed as soon as more of it is there than a line may have.
    fn take_chunk(&mut self, s: &[u8], _have: usize) -> Result<Option<usize>, Stop> {
        let next = self.do_lines(s, Holds::Lines)?;
        if LONGEST_LINE < s.len().saturating_sub(next) {
            return Err(self.malformed());
        }
        Ok(Some(next))
    }

    // What is left is a line without its line feed.
    fn take_end(&mut self, carried: &[u8]) -> Result<(), Stop> {
        self.do_lines(carried, Holds::LastLine)?;
        Ok(())
    }

    fn flush(&mut self) -> Result<(), Stop> {
        self.output.flush()
    }
}
