// Cases on a chain: each calls a function on the lent part of the chain memory.
use crate::line::long_at;
use crate::memory::Memory;
use crate::printing::{print_line, print_result};
use crate::room::Room;
use text::{byte_at, from};

// Runs a case on a chain.
pub(crate) fn run_chain(operation: u8, s: &[u8], memory: &mut Memory) {
    match operation {
        b'k' => {
            print_line(b"  ", &osp::osp_record_len(long_at(s, 0)).to_be_bytes());
            return;
        }
        b'l' => {
            read_lamp(s, memory.lent());
            return;
        }
        b'm' => make_chain(s, memory),
        b'w' => memory.put(long_at(s, 0) as usize, from(s, 4)),
        b't' => deliver(s, memory.lent()),
        _ => report(s, memory.lent()),
    }
    memory.print_record();
}

// m LENGTH COUNT SETUP T0 T1 T2
fn make_chain(s: &[u8], memory: &mut Memory) {
    memory.renew(long_at(s, 0) as usize);
    let result = osp::osp_make(
        memory.lent(),
        long_at(s, 4),
        byte_at(s, 8),
        byte_at(s, 9),
        byte_at(s, 10),
        byte_at(s, 11),
    );
    print_result(result, b"");
}

// t ROOM BYTES
fn deliver(s: &[u8], chain: &mut [u8]) {
    let mut room = Room::of(byte_at(s, 0));
    let result = osp::osp_deliver(chain, from(s, 1), room.lent());
    room.print(result);
}

// n PLACE TEMPERATURE FAULTS
fn report(s: &[u8], chain: &mut [u8]) {
    let result = osp::osp_sense(chain, long_at(s, 0), byte_at(s, 4), long_at(s, 5));
    print_result(result, b"");
}

// l ROOM PLACE
fn read_lamp(s: &[u8], chain: &[u8]) {
    let mut room = Room::of(byte_at(s, 0));
    let result = osp::osp_lamp(chain, long_at(s, 1), room.lent());
    room.print(result);
}
