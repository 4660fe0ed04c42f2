// The state of a reading read out of lent memory, twenty-one bytes. docs/RECORD.md has the table.
ghost use Rattle.std.specs.Prelude.{◌≡◌, ◌+◌, ◌≤◌, not, ◌&&◌, [], ◌∷◌, ◌++◌, length, take, drop, nat_le, slice_index};
ghost use Rattle.telegram.specs.Numbers.{refused, refuse, done, checksums_as};
ghost use Rattle.capture.specs.State.{stopped_for, checksums_in, standing_of, state_of};
ghost use Rattle.reader.specs.Layout.{reader_size, begun_as, reason_in, standing_in, count_in, position_in, carried_bytes, held_as, state_in};

use capture::{Phase, Reading};
use telegram::{Checksums, Refusal};

// A reading that was stopped, by the refusal's number and the two checksums of 5.
fn stopped_by(number: u8, computed: u8, received: u8) -> Option<Phase>
    ensures { begun_as result ≡ refuse (not (nat_le 1 number && nat_le number 5)) 11 (done (stopped_for (reason_in number computed received))) }
{
    match number {
        1 => Some(Phase::Stopped(Refusal::TooShort)),
        2 => Some(Phase::Stopped(Refusal::Preamble)),
        3 => Some(Phase::Stopped(Refusal::SizeIndex)),
        4 => Some(Phase::Stopped(Refusal::ByteCount)),
        5 => Some(Phase::Stopped(Refusal::Checksum(computed, received))),
        _ => None,
    }
}

// How a reading stands, by the first two bytes, and where 5 stopped it by the two checksums.
fn standing_in(phase: u8, value: u8, computed: u8, received: u8) -> Option<Phase>
    ensures { begun_as result ≡ standing_in phase value computed received }
{
    match phase {
        0 => Some(Phase::Open),
        1 => Some(Phase::Ended),
        2 => stopped_by(value, computed, received),
        _ => None,
    }
}

// How many bytes are carried, by the second byte.
fn count_in(phase: Phase, value: u8) -> usize
    ensures { result ≡ count_in (standing_of phase) value }
{
    match phase {
        Phase::Open | Phase::Ended => value as usize,
        Phase::Stopped(_) => 0,
    }
}

// The position in bytes 2 to 9.
pub(crate) fn position_in(mem: &[u8]) -> u64
    requires { reader_size ≤ length mem.now }
    ensures { result ≡ position_in mem.now }
{
    u64::from_be_bytes([
        mem[2], mem[3], mem[4], mem[5], mem[6], mem[7], mem[8], mem[9],
    ])
}

// The checksums that a reading holds.
pub(crate) fn sums_of(phase: Phase) -> Option<Checksums>
    ensures { checksums_as result ≡ checksums_in (standing_of phase) }
{
    match phase {
        Phase::Open | Phase::Ended => None,
        Phase::Stopped(e) => telegram::checksums_of(e),
    }
}

// Bytes 10 to 20, and a zero.
fn last_in(mem: &[u8]) -> [u8; 12]
    requires { reader_size ≤ length mem.now }
    ensures { result ≡ take 11 (drop 10 mem.now) ++ 0 ∷ [] }
{
    let mut bytes = [0u8; 12];
    bytes[..11].copy_from_slice(&mem[10..21]);
    bytes
}

// The bytes carried, in bytes 10 to 20. Checksums that stand there are not carried.
fn carried_in(phase: Phase, mem: &[u8]) -> [u8; 12]
    requires { reader_size ≤ length mem.now }
    ensures { result ≡ carried_bytes (standing_of phase) mem.now }
{
    let mut bytes = last_in(mem);
    if sums_of(phase).is_some() {
        bytes[0] = 0;
        bytes[1] = 0;
    }
    bytes
}

// The state in memory whose first byte says open: it holds no checksums, so bytes 10 to 20 are carried as they stand.
fn open_state(mem: &[u8]) -> Reading
    requires { (reader_size ≤ length mem.now) × (slice_index mem.now 0 ≡ 0) }
    ensures { done (state_of result) ≡ state_in mem.now }
{
    Reading {
        phase: Phase::Open,
        count: count_in(Phase::Open, mem[1]),
        position: position_in(mem),
        bytes: last_in(mem),
    }
}

// The state in memory of 21 bytes or more, whatever its first byte says.
fn any_state(mem: &[u8]) -> Option<Reading>
    requires { reader_size ≤ length mem.now }
    ensures { held_as result ≡ state_in mem.now }
{
    let phase = standing_in(mem[0], mem[1], mem[10], mem[11])?;
    Some(Reading {
        phase,
        count: count_in(phase, mem[1]),
        position: position_in(mem),
        bytes: carried_in(phase, mem),
    })
}

// The state that memory holds, if it holds one.
pub(crate) fn read_state(mem: &[u8]) -> Option<Reading>
    ensures { held_as result ≡ state_in mem.now }
{
    if mem.len() < 21 {
        return None;
    }
    any_state(mem)
}

// The same for a chunk, where the reader is nearly always open: that case is tested first and stays short. One function for both misses
// the bar of speed (docs/DECISIONS.md, "The state of an open reader").
pub(crate) fn read_likely_open(mem: &[u8]) -> Option<Reading>
    ensures { held_as result ≡ state_in mem.now }
{
    if mem.len() < 21 {
        return None;
    }
    if mem[0] == 0 {
        return Some(open_state(mem));
    }
    any_state(mem)
}
