// Runs a file of cases over the C interface: a line of standard input a case, the line and its result to standard output.
// The cases are the captures of documents 001 and 002 and the edges of document 01; crates/cases/stdin has the form of a line.
#![tactic(auto)]

mod captures;
mod chains;
mod line;
mod memory;
mod printing;
mod room;
mod telegrams;

use captures::run_reader;
use chains::run_chain;
use line::put_bytes;
use memory::Memory;
use printing::print;
use telegrams::run_case;
use text::Page;

// What a room holds before each call.
pub(crate) const FILL: u8 = 0x5A;

fn main() {
    let mut text = io::large_buffer();
    let n = io::read_full(text::IN, &mut text);
    let mut bytes = [FILL; 16384];
    run_lines(&text[..n], &mut Memory::of(&mut bytes));
}

// Runs each line.
fn run_lines(text: &[u8], memory: &mut Memory) {
    for line in text.split_inclusive(|b| *b == b'\n') {
        run_line(line.strip_suffix(b"\n").unwrap_or(line), memory);
    }
}

// Prints a line and, where it is a case, its result (by its letter, no enum: the letter is what the file has).
fn run_line(line: &[u8], memory: &mut Memory) {
    print(line);
    print(b"\n");
    let mut bytes = [0u8; 48];
    let mut case = Page::over(&mut bytes);
    put_bytes(&mut case, text::from(line, 1));
    let s = case.written();
    match text::byte_at(line, 0) {
        0 | b'#' => {}
        operation @ (b'k' | b'l' | b'm' | b'n' | b't' | b'w') => run_chain(operation, s, memory),
        operation @ (b'e' | b'g' | b'o' | b'q') => run_reader(operation, s, memory),
        operation => run_case(operation, s),
    }
}
