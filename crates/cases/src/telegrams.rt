// Cases on single telegrams: each calls a function with a room of its own.
use crate::line::long_at;
use crate::printing::print_line;
use crate::room::Room;
use text::{byte_at, from};

// Runs a case: the first byte is the length of the room; a checksum has none.
pub(crate) fn run_case(operation: u8, s: &[u8]) {
    if operation == b's' {
        print_line(b"  ", &[osp::osp_checksum(s)]);
        return;
    }
    let mut room = Room::of(byte_at(s, 0));
    let result = call(operation, from(s, 1), room.lent());
    room.print(result);
}

// Calls the function that the operation names.
fn call(operation: u8, s: &[u8], out: &mut [u8]) -> u32 {
    match operation {
        b'r' => osp::osp_read(s, out),
        b'd' => osp::osp_dissect(s, out),
        b'a' => osp::osp_dissect_answer(s, out),
        b'b' => osp::osp_build(long_at(s, 0), long_at(s, 4), from(s, 8), out),
        b'c' => osp::osp_build_command(
            long_at(s, 0),
            long_at(s, 4),
            long_at(s, 8),
            from(s, 12),
            out,
        ),
        b'p' => osp::osp_build_pwm(
            long_at(s, 0),
            long_at(s, 4),
            long_at(s, 8),
            long_at(s, 12),
            long_at(s, 16),
            long_at(s, 20),
            out,
        ),
        _ => 255,
    }
}
