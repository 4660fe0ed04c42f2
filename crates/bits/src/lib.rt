// Two tests joined, and a word and its two bytes. docs/PROMISES.md names these functions.
#![tactic(auto)]

ghost use Rattle.std.specs.Prelude.{◌≡◌, ◌&&◌, ◌||◌, ◌+◌, ◌*◌, ◌/◌, ◌%◌};

// Whether both hold. Both are always evaluated, without a branch, as by `&`.
pub fn and(a: bool, b: bool) -> bool
    ensures { result ≡ (a && b) }
{
    a & b
}

// Whether one of two holds, in the same way.
pub fn or(a: bool, b: bool) -> bool
    ensures { result ≡ (a || b) }
{
    a | b
}

// A word, high byte first. (By `from_be_bytes` and `to_be_bytes` GO to everyone took six times the instructions: the compiler then
// reads and writes each word of a slot anew.)
pub fn word(high: u8, low: u8) -> u16
    ensures { result ≡ high * 256 + low }
{
    high as u16 * 256 + low as u16
}

// The high byte of a word.
pub fn high(w: u16) -> u8
    ensures { result ≡ w / 256 }
{
    (w / 256) as u8
}

// The low byte of a word.
pub fn low(w: u16) -> u8
    ensures { result ≡ w % 256 }
{
    (w % 256) as u8
}
