// The standard streams: what is printed on them, and how an error of theirs is told.
use crate::Page;
use std::io::Error;

// The descriptors of standard input, standard output and standard error: numbers, as `io` takes them.
pub const IN: i32 = 0;

pub const OUT: i32 = 1;

pub const ERR: i32 = 2;

impl<'a> Page<'a> {
    // Prints what is written in one call.
    pub fn flush<P: Print>(&self, to: &P) -> Result<(), Error> {
        to.write_all(self.written())
    }

    // Writes what is written on a descriptor, as far as it takes it.
    pub fn say(&self, fd: i32) {
        io::write_all(fd, self.written());
    }
}

// The system's number for an input or output that failed.
pub const FAILED: i32 = 5;

// The system's number of an error.
pub fn number_of(e: &Error) -> i32 {
    e.raw_os_error().unwrap_or(FAILED)
}
