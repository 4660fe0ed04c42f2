// A room that a call is lent, and its result.
use crate::FILL;
use crate::printing::print_result;

// A room of so many bytes, in front of bytes that a call is not to change (fixed memory: no heap in the tool).
#[derive(Clone, Copy)]
pub(crate) struct Room {
    bytes: [u8; 48],
    size: u8,
}

impl Room {
    pub(crate) fn of(size: u8) -> Room {
        Room {
            bytes: [FILL; 48],
            size,
        }
    }

    // The bytes that are lent.
    pub(crate) fn lent(&mut self) -> &mut [u8] {
        let n = text::within(self.size as usize, &self.bytes);
        &mut self.bytes[..n]
    }

    // Prints the number that a call gave back, and what it put.
    pub(crate) fn print(&self, returned: u32) {
        print_result(returned, &self.bytes);
    }
}
