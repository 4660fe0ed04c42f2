// The chain memory, of which the cases lend a part.
use crate::FILL;
use crate::printing::print_line;

// The memory, and how many of its bytes are lent (fixed memory: no heap in the tool).
#[derive(Drop)]
pub(crate) struct Memory<'a> {
    bytes: &'a mut [u8],
    size: usize,
}

impl<'a> Memory<'a> {
    // The memory over a buffer, of which nothing is lent.
    pub(crate) fn of(bytes: &'a mut [u8]) -> Memory<'a> {
        Memory { bytes, size: 0 }
    }

    // Fills the memory and lends so many bytes of it, or all.
    pub(crate) fn renew(&mut self, size: usize) {
        self.bytes.fill(FILL);
        self.size = text::within(size, self.bytes);
    }

    // The bytes that are lent.
    pub(crate) fn lent(&mut self) -> &mut [u8] {
        let n = text::within(self.size, self.bytes);
        &mut self.bytes[..n]
    }

    // Puts bytes, as far as there are lent ones for them, from an index on.
    pub(crate) fn put(&mut self, at: usize, src: &[u8]) {
        let lent = self.lent();
        let at = text::within(at, lent);
        for (b, new) in lent[at..].iter_mut().zip(src) {
            *b = *new;
        }
    }

    // Prints the checksum of the bytes that are lent.
    pub(crate) fn print_record(&self) {
        let checksum = osp::osp_checksum(text::first(self.bytes, self.size));
        print_line(b"  record ", &[checksum]);
    }
}
