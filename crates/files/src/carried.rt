// The bytes of a file that were read and are not done yet.
use crate::Stop;
use std::io::Read;

// Bytes that were read and are not done yet, at the front of a lent buffer.
#[derive(Drop)]
pub(crate) struct Carried<'a> {
    room: &'a mut [u8],
    pub(crate) count: usize,
}

impl<'a> Carried<'a> {
    // A buffer in which there are none yet.
    pub(crate) fn over(room: &'a mut [u8]) -> Carried<'a> {
        Carried { room, count: 0 }
    }

    // The bytes that are there.
    pub(crate) fn bytes(&self) -> &[u8] {
        text::first(self.room, self.count)
    }

    // Reads once behind them. Answers how many more they are.
    pub(crate) fn read_more<I: Read>(&mut self, input: &mut I) -> Result<usize, Stop> {
        let at = text::within(self.count, self.room);
        let got = input
            .read(&mut self.room[at..])
            .map_err(|e| Stop::Unread(text::number_of(&e)))?;
        self.count = at.wrapping_add(got);
        Ok(got)
    }

    // Drops the bytes before an index, and moves the others to the front.
    pub(crate) fn keep_from(&mut self, from: usize) {
        let end = text::within(self.count, self.room);
        if end < from {
            self.count = 0;
            return;
        }
        self.room.copy_within(from..end, 0);
        self.count = end - from;
    }
}
