// What a reading remembers: states that carry nothing, and whether some reading leaves a state.
ghost use Rattle.std.specs.Prelude.{◌≡◌, ◌+◌, ◌*◌, ◌^◌, ◌<◌, ◌≤◌, take, drop};
ghost use Rattle.telegram.specs.Numbers.{reason_of};
ghost use Rattle.frame.specs.Frame.{cutting};
ghost use Rattle.capture.specs.State.{state_of, standing_of, zeros, is_left, is_incomplete, stops as stops_reading, resting as resting_at};

use crate::{Phase, Reading};
use frame::Cut;
use telegram::Refusal;

// A reading that carries nothing. An open one at position 0 is a fresh one.
pub fn resting(phase: Phase, position: u64) -> Reading
    ensures { state_of result ≡ resting_at (standing_of phase) position }
{
    Reading {
        phase,
        count: 0,
        position,
        bytes: [0; 12],
    }
}

// Four bytes as a number, low byte first.
fn four(a: u8, b: u8, c: u8, d: u8) -> u64
    ensures { (result ≡ a + b * 256 + c * 65536 + d * 16777216) × (result < 4294967296) }
{
    u32::from_le_bytes([a, b, c, d]) as u64
}

// A power of 256.
fn power(k: usize) -> u64
    requires { k ≤ 7 }
    ensures { (result ≡ 256 ^ k) × (result ≤ 72057594037927936) }
{
    1 << (8 * k)
}

// Whether all bytes from an index on are zero: then the bytes, low byte first, are a number below that power of 256. (With a fold over the
// bytes a chunk of one byte took 110 instructions in `next_at`, where it takes 61 so.)
fn zero_from(bytes: [u8; 12], from: usize) -> bool
    requires { from ≤ 12 }
    ensures { result ≡ zeros (drop from bytes) }
{
    let high = four(bytes[8], bytes[9], bytes[10], bytes[11]);
    let limit = power(from % 8);
    if 8 <= from {
        return high < limit;
    }
    if high != 0 {
        return false;
    }
    let upper = four(bytes[4], bytes[5], bytes[6], bytes[7]);
    let lower = four(bytes[0], bytes[1], bytes[2], bytes[3]);
    lower + upper * 4294967296 < limit
}

// Whether the first `n` bytes begin a telegram that is neither refused nor whole.
fn unfinished(bytes: [u8; 12], n: usize) -> bool
    requires { n ≤ 12 }
    ensures { result ≡ is_incomplete (cutting (take n bytes)) }
{
    matches!(frame::cut_first(&bytes[..n]), Cut::Incomplete)
}

// Whether a refusal stops a reading: 5 whose checksums differ, or 1 to 4. Each has its arm: `matches!` would need one for 5 beside it.
fn stops(e: Refusal) -> bool
    ensures { result ≡ stops_reading (reason_of e) }
{
    match e {
        Refusal::TooShort | Refusal::Preamble | Refusal::SizeIndex | Refusal::ByteCount => true,
        Refusal::Checksum(computed, received) => computed != received,
        _ => false,
    }
}

// Whether some reading leaves this state.
pub fn is_left(s: Reading) -> bool
    ensures { result ≡ is_left (state_of s) }
{
    if 11 < s.count || !zero_from(s.bytes, s.count) {
        return false;
    }
    match s.phase {
        Phase::Open => unfinished(s.bytes, s.count),
        Phase::Ended => s.count == 0,
        Phase::Stopped(e) => s.count == 0 && stops(e),
    }
}
