// The checksum of a telegram: document 01, "The bytes of a telegram".
#![tactic(auto)]

ghost use Rattle.std.specs.Prelude.{◌≡◌};
ghost use Rattle.checksum.specs.Checksum.{shift_bit, remainder_byte, checksum_of};

// One bit of the division.
fn shift_bit(r: u8) -> u8
    ensures { result ≡ shift_bit r }
{
    if r < 128 {
        return r * 2;
    }
    ((r - 128) * 2) ^ 0x2F
}

// The remainder carried over one byte. The compiler makes a table of this loop of eight.
fn remainder_byte(r: u8, b: u8) -> u8
    ensures { result ≡ remainder_byte r b }
{
    let mut x = r ^ b;
    for _ in 0..8u8 {
        x = shift_bit(x);
    }
    x
}

// The checksum of the bytes of `s`.
pub fn checksum(s: &[u8]) -> u8
    ensures { result ≡ checksum_of s.now }
{
    s.iter().fold(0, |r, b| remainder_byte(r, *b))
}
