// What one lamp does with a command, which is told by its number, as the rules speak of it: document 01, "A lamp and the chain";
// document 02, request 02.
#![tactic(auto)]

ghost use Rattle.std.specs.Prelude.{◌≡◌, ◌||◌, not, List, ℕ, ◌≤◌};
ghost use Rattle.command.specs.Commands.{numbered};
ghost use Rattle.rules.specs.declared.Defaults.{Defaults as DefaultsType};
ghost use Rattle.rules.specs.Lamp.{bit, state_number, status_byte, status_of, blank, with_state, no_flags, marked, faulted, sensed, uninitialized, told, answered, report};
ghost use Rattle.lamp.specs.Reactions.{padded};

use rules::{Defaults, Flags, Lamp, State, Words};
use telegram::Address;

// The bytes of an answer, in the first `size` bytes, none where there is no answer: memory is fixed, and an answer has up to six.
#[derive(Clone, Copy)]
pub struct Payload {
    pub bytes: [u8; 6],
    pub size: usize,
}

// A bit as a number. docs/PROMISES.md names the function.
pub fn bit_number(b: bool) -> u8
    ensures { (result ≡ bit b) × (result ≤ 1) }
{
    u8::from(b)
}

// The number of a state. docs/PROMISES.md names the function.
pub fn state_number(s: State) -> u8
    ensures { (result ≡ state_number s) × (result ≤ 3) }
{
    match s {
        State::Uninitialized => 0,
        State::Sleep => 1,
        State::Active => 2,
        State::DeepSleep => 3,
    }
}

// The status byte of a state, a direction and flags.
pub fn status_byte(state: State, direction: bool, f: Flags) -> u8
    ensures { result ≡ status_byte state direction f }
{
    state_number(state) * 64
        + bit_number(f.otpcrc) * 32
        + bit_number(direction) * 16
        + bit_number(f.ce) * 8
        + bit_number(f.los) * 4
        + bit_number(f.ot) * 2
        + bit_number(f.uv)
}

// The five flags, none set.
pub fn no_flags() -> Flags
    ensures { result ≡ no_flags }
{
    Flags {
        otpcrc: false,
        ce: false,
        los: false,
        ot: false,
        uv: false,
    }
}

// The flags with CE set.
pub fn marked_flags(f: Flags) -> Flags
    ensures { result ≡ marked f }
{
    Flags { ce: true, ..f }
}

// The flags after a sensor report's number of faults. (docs/PROMISES.md names the function.)
pub fn faulted_flags(faults: u8, f: Flags) -> Flags
    ensures { result ≡ faulted faults f }
{
    Flags {
        los: f.los || faults / 4 % 2 == 1,
        ot: f.ot || faults / 2 % 2 == 1,
        uv: f.uv || faults % 2 == 1,
        ..f
    }
}

// What RESET leaves, with a temperature.
pub fn blank_lamp(d: Defaults, temperature: u8) -> Lamp
    ensures { result ≡ blank d temperature }
{
    Lamp {
        address: Address(0x3FF),
        state: State::Uninitialized,
        direction: true,
        flags: no_flags(),
        temperature,
        thresholds: d.thresholds,
        setup: d.setup,
        groups: 0,
        pwm: Words {
            red: 0,
            green: 0,
            blue: 0,
        },
    }
}

// A fresh lamp: temperature 0, everything else as RESET leaves it.
pub fn fresh_lamp(d: Defaults) -> Lamp
    ensures { result ≡ blank d 0 }
{
    blank_lamp(d, 0)
}

// A lamp after a sensor report.
pub fn sensed_lamp(l: Lamp, measured: u8, faults: u8) -> Lamp
    ensures { result ≡ sensed measured faults l }
{
    Lamp {
        temperature: measured,
        flags: faulted_flags(faults, l.flags),
        ..l
    }
}

// A lamp with another state.
pub fn with_state(l: Lamp, state: State) -> Lamp
    ensures { result ≡ with_state state l }
{
    Lamp { state, ..l }
}

// Whether a lamp in a state obeys what every state obeys, or what UNINITIALIZED does not. (docs/PROMISES.md names the function.)
pub fn heeds(always: bool, s: State) -> bool
    ensures { result ≡ (not (uninitialized s) || always) }
{
    s != State::Uninitialized || always
}

// The bytes of an answer, of which there are up to six.
fn payload_of<const N: usize>(values: [u8; N]) -> Payload
    requires { N ≤ 6 }
    ensures { result ≡ padded values.entry }
{
    let mut bytes = [0u8; 6];
    bytes[..N].copy_from_slice(&values);
    Payload { bytes, size: N }
}

// Temperature, then status.
pub fn report_bytes(l: Lamp) -> Payload
    ensures { result ≡ padded (report l) }
{
    payload_of([l.temperature, status_of(l)])
}

// The status byte of a lamp. (Private: the tool has its own for its one call of it.)
fn status_of(l: Lamp) -> u8
    ensures { result ≡ status_of l }
{
    status_byte(l.state, l.direction, l.flags)
}

// What a lamp that obeys a command answers: the register as it stands, to an acknowledged command temperature and status as they will
// stand after the effect, of which only a GO command changes one. The status byte is made before the match: there the compiler sees that
// it is the one which was loaded.
#[tactic(auto, unfolding(rules::specs::Lamp::told_plain, rules::specs::Lamp::changed_plain, table::specs::Table::plain_number, table::specs::Table::acknowledged))]
fn told_bytes(n: u8, l: Lamp) -> Payload
    ensures { (d : DefaultsType) (f : List ℕ) → result ≡ padded (told d (numbered n f) l) }
{
    let status = status_of(l);
    match n {
        0x07 => payload_of([0, 0, 0, 0]),
        0x0C => payload_of(l.groups.to_be_bytes()),
        0x40 => payload_of([status]),
        0x2D | 0x42 | 0x6B | 0x6D | 0x6F => report_bytes(l),
        0x24 => report_bytes(with_state(l, State::Sleep)),
        0x25 => report_bytes(with_state(l, State::Active)),
        0x26 => report_bytes(with_state(l, State::DeepSleep)),
        0x48 => payload_of([l.temperature]),
        0x4A => payload_of([l.thresholds.cycle, l.thresholds.low, l.thresholds.high]),
        0x4C => payload_of([l.setup]),
        0x4E => payload_of([
            bits::high(l.pwm.red),
            bits::low(l.pwm.red),
            bits::high(l.pwm.green),
            bits::low(l.pwm.green),
            bits::high(l.pwm.blue),
            bits::low(l.pwm.blue),
        ]),
        _ => payload_of([]),
    }
}

// What a lamp that a command reaches answers, whatever the defaults and the command's fields are.
#[tactic(auto, unfolding(rules::specs::Lamp::answered))]
pub fn answer_bytes(n: u8, l: Lamp) -> Payload
    ensures { (d : DefaultsType) (f : List ℕ) → result ≡ padded (answered d (numbered n f) l) }
{
    if heeds(n <= 0x01, l.state) {
        told_bytes(n, l)
    } else {
        payload_of([])
    }
}
