// What a refusal is in numbers: its own, and the two checksums that a wrong one has. Functions and no `From`: a refusal has two numbers, and
// each contract names the one that it gives.
ghost use Rattle.std.specs.Prelude.{◌≡◌};
ghost use Rattle.telegram.specs.Numbers.{reason_of, number_of, checksums_as, value_of};
ghost use Rattle.telegram.specs.Telegram.{refusal_in};

use crate::{Checksums, Refusal, Telegram};

// The number of a refusal.
pub fn refusal_number(e: Refusal) -> u8
    ensures { result ≡ number_of e }
{
    match e {
        Refusal::TooShort => 1,
        Refusal::Preamble => 2,
        Refusal::SizeIndex => 3,
        Refusal::ByteCount => 4,
        Refusal::Checksum(_, _) => 5,
        Refusal::UnknownCommand => 6,
        Refusal::CastNotAllowed => 7,
        Refusal::PayloadSize => 8,
        Refusal::RoomTooSmall => 9,
        Refusal::OutOfRange => 10,
        Refusal::NoChain => 11,
        Refusal::InitPastEnd => 12,
        Refusal::NoLamp => 13,
    }
}

// The checksums that a refusal has.
pub fn checksums_of(e: Refusal) -> Option<Checksums>
    ensures { checksums_as result ≡ (reason_of e).carries }
{
    let Refusal::Checksum(computed, received) = e else {
        return None;
    };
    Some(Checksums { computed, received })
}

// A refusal in one number: its own in the lowest byte and, of a wrong checksum, the two in the next two bytes.
pub fn refusal_value(e: Refusal) -> u32
    ensures { result ≡ value_of (reason_of e) }
{
    let number = refusal_number(e) as u32;
    match checksums_of(e) {
        Some(sums) => number + sums.computed as u32 * 256 + sums.received as u32 * 65536,
        None => number,
    }
}

// The refusal in the reader's answer, to pass it on whole. (An accepted telegram, of which nothing asks, gives 1.)
pub fn refusal_of(r: Result<Telegram, Refusal>) -> Refusal
    ensures { result ≡ refusal_in r }
{
    match r {
        Err(e) => e,
        Ok(_) => Refusal::TooShort,
    }
}
