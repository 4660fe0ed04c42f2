// Single telegrams: document 01, "The bytes of a telegram" and "Numbers given back".
#![tactic(auto)]

mod refusals;

ghost use Rattle.std.specs.Prelude.{◌≡◌, ◌+◌, ◌*◌, ◌/◌, ◌%◌, ◌≤◌, ◌<◌, ◌++◌, length, take, drop, set};
ghost use Rattle.checksum.specs.Checksum.{checksum_of};
ghost use Rattle.telegram.specs.Numbers.{outcome_of, counted, front, leaves};
ghost use Rattle.telegram.specs.Telegram.{index_from, size_of, framing, reading, computed_in, received_in, header, listed, index_of, telegram_of, building};

pub use refusals::{checksums_of, refusal_number, refusal_of, refusal_value};

// An address: on the chain it has 10 bits, and the builder refuses a larger one. A lamp's place is another kind of number, with a type of
// its own.
#[derive(Clone, Copy, PartialEq, Eq)]
pub struct Address(pub u16);

// A telegram that was read. Its payload stays in the slice: `size` bytes from index 3 on (the definitions have these three fields).
#[derive(Clone, Copy)]
pub struct Telegram {
    pub address: Address,
    pub command: u8,
    pub size: usize,
}

// The refusals of document 01 in the order of their numbers, 1 to 13. A wrong checksum has the one worked out and the one received.
#[derive(Clone, Copy, PartialEq, Eq)]
pub enum Refusal {
    TooShort,
    Preamble,
    SizeIndex,
    ByteCount,
    Checksum(u8, u8),
    UnknownCommand,
    CastNotAllowed,
    PayloadSize,
    RoomTooSmall,
    OutOfRange,
    NoChain,
    InitPastEnd,
    NoLamp,
}

// The checksums of a telegram: the one worked out and the one received.
#[derive(Clone, Copy)]
pub struct Checksums {
    pub computed: u8,
    pub received: u8,
}

// The size index in bytes 1 and 2.
pub fn index_in(b1: u8, b2: u8) -> u8
    ensures { result ≡ index_from b1 b2 }
{
    b1 % 4 * 2 + b2 / 128
}

// The address in bytes 0 and 1.
fn address_in(b0: u8, b1: u8) -> u16
    ensures { result ≡ b0 % 16 * 64 + b1 / 4 }
{
    (b0 % 16) as u16 * 64 + (b1 / 4) as u16
}

// The payload bytes that a size index means.
pub fn size_of(index: u8) -> usize
    ensures { (result ≡ size_of index) × (result ≤ 255) }
{
    if index == 7 { 8 } else { index as usize }
}

// The frame of a telegram: everything but its checksum. Refusals 1 to 4.
pub fn read_frame(s: &[u8]) -> Result<Telegram, Refusal>
    ensures { outcome_of result ≡ framing s.now }
{
    let n = s.len();
    if n < 4 {
        return Err(Refusal::TooShort);
    }
    let b0 = s[0];
    let b1 = s[1];
    let b2 = s[2];
    if b0 / 16 != 10 {
        return Err(Refusal::Preamble);
    }
    let index = index_in(b1, b2);
    if index == 5 {
        return Err(Refusal::SizeIndex);
    }
    let size = size_of(index);
    if n != 4 + size {
        return Err(Refusal::ByteCount);
    }
    Ok(Telegram {
        address: Address(address_in(b0, b1)),
        command: b2 % 128,
        size,
    })
}

// The checksum of all bytes up to the last of a payload of `size` bytes.
fn computed_in(s: &[u8], size: usize) -> u8
    requires { 3 + size < length s.now }
    ensures { result ≡ computed_in s.now size }
{
    checksum::checksum(&s[..3 + size])
}

// The byte behind a payload of `size` bytes.
fn received_in(s: &[u8], size: usize) -> u8
    requires { 3 + size < length s.now }
    ensures { result ≡ received_in s.now size }
{
    s[3 + size]
}

// The telegram in a slice that has just its bytes. Refusals 1 to 5, which has both checksums.
pub fn read_telegram(s: &[u8]) -> Result<Telegram, Refusal>
    ensures { outcome_of result ≡ reading s.now }
{
    let t = read_frame(s)?;
    let computed = computed_in(s, t.size);
    let received = received_in(s, t.size);
    if computed != received {
        return Err(Refusal::Checksum(computed, received));
    }
    Ok(t)
}

// Whether a payload of `n` bytes has a size index.
fn listed_length(n: usize) -> bool
    ensures { result ≡ listed n }
{
    n <= 4 || n == 6 || n == 8
}

// The size index of a payload of `n` bytes.
fn index_of(n: usize) -> u8
    requires { n ≤ 8 }
    ensures { (result ≡ index_of n) × (result ≤ 7) }
{
    if n == 8 { 7 } else { n as u8 }
}

// The three bytes of a header, each of the numbers that stand in it. That address, index and command are in range is asked of each: a struct
// would hold the three for one call, and say no more.

// Byte 0: preamble and the top of the address.
fn byte_0(a: u16) -> u8
    requires { a ≤ 1023 }
    ensures { result ≡ 160 + a / 64 }
{
    (160 + a / 64) as u8
}

// Byte 1: the rest of the address and the top of the size index.
fn byte_1(a: u16, index: u8) -> u8
    requires { index ≤ 7 }
    ensures { result ≡ a % 64 * 4 + index / 2 }
{
    (a % 64 * 4) as u8 + index / 2
}

// Byte 2: the rest of the size index and the command.
fn byte_2(index: u8, c: u8) -> u8
    requires { c ≤ 127 }
    ensures { result ≡ index % 2 * 128 + c }
{
    index % 2 * 128 + c
}

// Writes the first three bytes.
fn write_header(a: u16, index: u8, c: u8, out: &mut [u8])
    requires { (a ≤ 1023) × (index ≤ 7) × (c ≤ 127) × (3 ≤ length out.old) }
    ensures { out.new ≡ front (header a index c) out.old }
{
    out[0] = byte_0(a);
    out[1] = byte_1(a, index);
    out[2] = byte_2(index, c);
}

// Copies `src` into `dst`, from the index `at` on. `chain` has its own (`put_bytes`): a public function has no `requires`.
fn put_at(src: &[u8], dst: &mut [u8], at: usize)
    requires { at + length src.now ≤ length dst.old }
    ensures { dst.new ≡ (take at dst.old ++ src.now) ++ drop (at + length src.now) dst.old }
{
    dst[at..at + src.len()].copy_from_slice(src);
}

// Stores the checksum of the first `n` bytes behind them.
fn seal(out: &mut [u8], n: usize)
    requires { n < length out.old }
    ensures { out.new ≡ set out.old n (checksum_of (take n out.old)) }
{
    out[n] = checksum::checksum(&out[..n]);
}

// Writes a telegram to the front of a room that is long enough.
fn write_telegram(a: u16, c: u8, payload: &[u8], out: &mut [u8])
    requires { (a ≤ 1023) × (c ≤ 127) × (length payload.now ≤ 8) × (4 + length payload.now ≤ length out.old) }
    ensures { out.new ≡ front (telegram_of a c payload.now) out.old }
{
    let n = payload.len();
    let index = index_of(n);
    write_header(a, index, c, out);
    put_at(payload, out, 3);
    seal(out, 3 + n);
}

// The raw builder. Refusals 10, then 9.
pub fn build_telegram(
    address: Address,
    command: u8,
    payload: &[u8],
    out: &mut [u8],
) -> Result<usize, Refusal>
    ensures result_value { outcome_of result ≡ counted (building address.0 command payload.now (length out.old)) }
    ensures out_after { out.new ≡ leaves (building address.0 command payload.now (length out.old)) out.old }
{
    if 1023 < address.0 || 127 < command || !listed_length(payload.len()) {
        return Err(Refusal::OutOfRange);
    }
    let total = 4 + payload.len();
    if out.len() < total {
        return Err(Refusal::RoomTooSmall);
    }
    write_telegram(address.0, command, payload, out);
    Ok(total)
}
