// A lamp and its registers: the types of which the written rules in specs/ speak. Document 01, "A lamp and the chain".
#![tactic(auto)]

use telegram::Address;

// Document 01's place: where a lamp stands in the chain. Place 0 is the lamp nearest the host. Not an address.
#[derive(Clone, Copy, PartialEq, Eq)]
pub struct Place(pub usize);

// What a lamp is doing.
#[derive(Clone, Copy, PartialEq, Eq)]
pub enum State {
    Uninitialized,
    Sleep,
    Active,
    DeepSleep,
}

// The five fault flags, in the order of the status byte.
#[derive(Clone, Copy)]
pub struct Flags {
    pub otpcrc: bool,
    pub ce: bool,
    pub los: bool,
    pub ot: bool,
    pub uv: bool,
}

// The three bytes of the overtemperature register, in the order in which they are sent: filter cycle, low and high threshold.
#[derive(Clone, Copy)]
pub struct Thresholds {
    pub cycle: u8,
    pub low: u8,
    pub high: u8,
}

// The six PWM bytes as three words, high byte first.
#[derive(Clone, Copy)]
pub struct Words {
    pub red: u16,
    pub green: u16,
    pub blue: u16,
}

// Document 01's defaults: what a chain is made with and keeps.
#[derive(Clone, Copy)]
pub struct Defaults {
    pub setup: u8,
    pub thresholds: Thresholds,
}

// A lamp. The direction is COM, one bit of the status byte as the rules have it: false is bidirectional, true is loop. An address of 3FF
// says that it has none, as on the chain.
#[derive(Clone, Copy)]
pub struct Lamp {
    pub address: Address,
    pub state: State,
    pub direction: bool,
    pub flags: Flags,
    pub temperature: u8,
    pub thresholds: Thresholds,
    pub setup: u8,
    pub groups: u16,
    pub pwm: Words,
}
