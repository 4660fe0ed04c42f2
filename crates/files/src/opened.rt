// The file that is read: one that was opened, or standard input.
use crate::Stop;
use std::fs::File;
use std::io::{Error, Read};
use std::rt::Files;

// What is read: a file that was opened, or standard input.
#[derive(Drop)]
pub enum Opened<F, S> {
    Named(F),
    Standard(S),
}

impl<F: Read, S: Read> Read for Opened<F, S> {
    fn read(&mut self, buf: &mut [u8]) -> Result<usize, Error> {
        match self {
            Opened::Named(file) => file.read(buf),
            Opened::Standard(input) => input.read(buf),
        }
    }
}

// The system's number for bytes that are no text: a name has to be UTF-8.
const NO_TEXT: i32 = 84;

// Opens the file of a name; - is standard input.
pub fn open_file<R: Files + Input>(
    rt: &R,
    name: &[u8],
) -> Result<Opened<R::File, R::Reader>, Stop> {
    if name == b"-".as_slice() {
        return Ok(Opened::Standard(rt.reader()));
    }
    let path = str::from_utf8(name).map_err(|_| Stop::Unread(NO_TEXT))?;
    let file = File::open(rt, path).map_err(|e| Stop::Unread(text::number_of(&e)))?;
    Ok(Opened::Named(file))
}
