// The results of cases as lines.
use crate::FILL;
use std::fmt;
use std::fmt::Write;
use text::digit;

// Standard output, to write to.
#[derive(Clone, Copy)]
struct Out;

impl fmt::Write for Out {
    fn write_str(&mut self, s: &str) -> fmt::Result {
        print(s.as_bytes());
        Ok(())
    }
}

pub(crate) fn print(s: &[u8]) {
    io::write_all(text::OUT, s);
}

// The number given back; behind 0 the count and the bytes written, behind 5 the checksums worked out and received; and whether another
// byte of the room changed.
pub(crate) fn print_result(returned: u32, out: &[u8]) {
    let [_, received, computed, number] = returned.to_be_bytes();
    let count = if number == 0 { returned / 256 } else { 0 };
    let written = text::first(out, count as usize);
    let _ = write!(Out, "  {number}");
    match number {
        0 => {
            let _ = write!(Out, " {count}");
            print_bytes(written);
        }
        5 => print_bytes(&[computed, received]),
        _ => {}
    }
    print(b"\n");
    if !text::from(out, written.len()).iter().all(|b| *b == FILL) {
        print(b"  room changed\n");
    }
}

// Bytes in hex, with a space before each. (`write!` would call the system for each of its pieces.)
fn print_bytes(s: &[u8]) {
    for b in s {
        print(&[b' ', digit(*b / 16), digit(*b)]);
    }
}

// A line of words, and bytes in hex behind them.
pub(crate) fn print_line(words: &[u8], bytes: &[u8]) {
    print(words);
    for b in bytes {
        print(&[digit(*b / 16), digit(*b)]);
    }
    print(b"\n");
}
