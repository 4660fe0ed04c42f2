// The bytes of one lamp in the record (docs/RECORD.md): a lamp of its slot, and the slot of a lamp. Every sixteen bytes are a slot.
#![tactic(auto)]

ghost use Rattle.std.specs.Prelude.{◌≡◌, ◌+◌, ◌*◌, eqb};
ghost use Rattle.rules.specs.Chain.{address_right, lamp_right};
ghost use Rattle.slot.specs.Slot.{state_in, flags_in, lamp_of, slot_of};

use rules::{Flags, Lamp, State, Thresholds, Words};
use telegram::Address;

// How many bytes a slot has.
pub const SIZE: usize = 16;

// The state in a status byte. (No `From`: the byte holds the direction and the flags too.)
fn state_in(b: u8) -> State
    ensures { result ≡ state_in b }
{
    match b / 64 {
        0 => State::Uninitialized,
        1 => State::Sleep,
        2 => State::Active,
        _ => State::DeepSleep,
    }
}

// The flags in a status byte.
fn flags_in(b: u8) -> Flags
    ensures { result ≡ flags_in b }
{
    Flags {
        otpcrc: b / 32 % 2 == 1,
        ce: b / 8 % 2 == 1,
        los: b / 4 % 2 == 1,
        ot: b / 2 % 2 == 1,
        uv: b % 2 == 1,
    }
}

// The lamp in a slot.
#[tactic(auto, unfolding(crate::specs::Slot::lamp_of))]
pub fn lamp_of(bytes: [u8; SIZE]) -> Lamp
    ensures { result ≡ lamp_of bytes }
{
    let b = bytes[2];
    Lamp {
        address: Address(bits::word(bytes[0], bytes[1])),
        state: state_in(b),
        direction: b / 16 % 2 == 1,
        flags: flags_in(b),
        temperature: bytes[3],
        thresholds: Thresholds {
            cycle: bytes[4],
            low: bytes[5],
            high: bytes[6],
        },
        setup: bytes[7],
        groups: bits::word(bytes[8], bytes[9]),
        pwm: Words {
            red: bits::word(bytes[10], bytes[11]),
            green: bits::word(bytes[12], bytes[13]),
            blue: bits::word(bytes[14], bytes[15]),
        },
    }
}

// The address of the lamp in a slot.
pub fn address_of(bytes: [u8; SIZE]) -> Address
    ensures { result ≡ (lamp_of bytes).address }
{
    lamp_of(bytes).address
}

// Whether two bytes are those of a word. Both are compared low byte on top, as the machine reads two bytes at once.
fn is_word(high: u8, low: u8, n: u16) -> bool
    ensures { result ≡ eqb (high * 256 + low) n }
{
    bits::word(low, high) == bits::word(bits::low(n), bits::high(n))
}

// Whether the lamp in a slot has an address.
#[tactic(auto, unfolding(crate::specs::Slot::lamp_of))]
pub fn has_address(bytes: [u8; SIZE], a: Address) -> bool
    ensures { result ≡ eqb (lamp_of bytes).address.0 a.0 }
{
    is_word(bytes[0], bytes[1], a.0)
}

// Whether an address may be stored.
fn address_right(a: Address) -> bool
    ensures { result ≡ address_right a.0 }
{
    let n = a.0;
    n == 0x3FF || 1 <= n && n <= 0x3EF
}

// Whether the lamp in a slot is valid.
pub fn is_right(bytes: [u8; SIZE]) -> bool
    ensures { result ≡ lamp_right (lamp_of bytes) }
{
    address_right(address_of(bytes))
}

// The slot of a lamp.
#[tactic(auto, unfolding(crate::specs::Slot::slot_of))]
pub fn slot_of(l: Lamp) -> [u8; SIZE]
    ensures { result ≡ slot_of l }
{
    [
        bits::high(l.address.0),
        bits::low(l.address.0),
        lamp::status_byte(l.state, l.direction, l.flags),
        l.temperature,
        l.thresholds.cycle,
        l.thresholds.low,
        l.thresholds.high,
        l.setup,
        bits::high(l.groups),
        bits::low(l.groups),
        bits::high(l.pwm.red),
        bits::low(l.pwm.red),
        bits::high(l.pwm.green),
        bits::low(l.pwm.green),
        bits::high(l.pwm.blue),
        bits::low(l.pwm.blue),
    ]
}
