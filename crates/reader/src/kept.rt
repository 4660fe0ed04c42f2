// The state of a reading kept in lent memory, twenty-one bytes. docs/RECORD.md has the table.
ghost use Rattle.std.specs.Prelude.{◌≡◌, ◌+◌, ◌%◌, ◌≤◌, ◌++◌, length, slice_index};
ghost use Rattle.telegram.specs.Numbers.{front};
ghost use Rattle.capture.specs.State.{going, checksums_in, standing_of, state_of};
ghost use Rattle.reader.specs.Layout.{reader_size, position_in, standing_byte, value_byte, position_bytes, state_head, holding};

use crate::found::sums_of;
use capture::{Phase, Reading};

// A reading that can be kept: its count fits in a byte.
#[derive(Clone, Copy)]
pub(crate) struct Kept {
    pub reading: Reading,
    ghost fits: { reading.count ≤ 255 },
}

// Byte 0 of a state, as docs/RECORD.md has it.
fn standing_byte(phase: Phase) -> u8
    ensures { result ≡ standing_byte (standing_of phase) }
{
    match phase {
        Phase::Open => 0,
        Phase::Ended => 1,
        Phase::Stopped(_) => 2,
    }
}

// Byte 1 of a state.
fn value_byte(kept: Kept) -> u8
    ensures { result ≡ value_byte (standing_of kept.reading.phase) kept.reading.count }
{
    match kept.reading.phase {
        Phase::Open | Phase::Ended => kept.reading.count as u8,
        Phase::Stopped(e) => telegram::refusal_number(e),
    }
}

// The eight bytes of a position.
pub(crate) fn position_bytes(p: u64) -> [u8; 8]
    ensures { result ≡ position_bytes p }
{
    p.to_be_bytes()
}

// The first ten bytes of a state.
fn head_of(kept: Kept) -> [u8; 10]
    ensures { result ≡ state_head (state_of kept.reading) }
{
    let b = position_bytes(kept.reading.position);
    [
        standing_byte(kept.reading.phase),
        value_byte(kept),
        b[0],
        b[1],
        b[2],
        b[3],
        b[4],
        b[5],
        b[6],
        b[7],
    ]
}

// Writes two parts to the front of memory, one behind the other. (`osp` writes a pair too, into a room that may be too small.)
fn write_parts(head: &[u8], rest: &[u8], mem: &mut [u8])
    requires { length head.now + length rest.now ≤ length mem.old }
    ensures { mem.new ≡ front (head.now ++ rest.now) mem.old }
{
    let n = head.len();
    mem[..n].copy_from_slice(head);
    mem[n..n + rest.len()].copy_from_slice(rest);
}

// The bytes that a state carries, or the checksums of a reading that 5 stopped, in their place.
fn kept_bytes(r: Reading) -> [u8; 12]
    ensures { result ≡ front (checksums_in (standing_of r.phase)) r.bytes }
{
    let mut bytes = r.bytes;
    if let Some(sums) = sums_of(r.phase) {
        bytes[0] = sums.computed;
        bytes[1] = sums.received;
    }
    bytes
}

// Keeps a state in memory; bytes behind it stay.
pub(crate) fn keep(kept: Kept, mem: &mut [u8])
    requires { reader_size ≤ length mem.old }
    ensures { mem.new ≡ holding (state_of kept.reading) mem.old }
{
    let head = head_of(kept);
    let bytes = kept_bytes(kept.reading);
    write_parts(&head, &bytes[..11], mem);
}

// Keeps an open state in memory that holds one at the same position: only the count and the bytes carried change.
pub(crate) fn keep_carried(kept: Kept, mem: &mut [u8])
    requires { (reader_size ≤ length mem.old) × (standing_of kept.reading.phase ≡ going) × (slice_index mem.old 0 ≡ 0) × (position_in mem.old ≡ kept.reading.position) }
    ensures { mem.new ≡ holding (state_of kept.reading) mem.old }
{
    mem[1] = kept.reading.count as u8;
    mem[10..21].copy_from_slice(&kept.reading.bytes[..11]);
}
