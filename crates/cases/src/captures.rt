// Cases on a reader of captures, whose state is the lent part of the chain memory.
use crate::line::long_at;
use crate::memory::Memory;
use crate::printing::{print_line, print_result};
use crate::room::Room;
use text::{byte_at, from};

// Runs a case on a reader.
pub(crate) fn run_reader(operation: u8, s: &[u8], memory: &mut Memory) {
    match operation {
        b'q' => {
            let position = osp::osp_reader_position(memory.lent());
            print_line(b"  ", &position.to_be_bytes());
            return;
        }
        b'o' => {
            memory.renew(s.len());
            memory.put(0, s);
        }
        b'g' => next(s, memory.lent()),
        _ => print_result(osp::osp_reader_end(memory.lent()), b""),
    }
    memory.print_record();
}

// g ROOM AT CHUNK
fn next(s: &[u8], reader: &mut [u8]) {
    let mut room = Room::of(byte_at(s, 0));
    let mut at = long_at(s, 1) as usize;
    let result = osp::osp_reader_next(reader, from(s, 5), &mut at, room.lent());
    room.print(result);
    print_line(b"  at ", &((at % 4294967296) as u32).to_be_bytes());
}
