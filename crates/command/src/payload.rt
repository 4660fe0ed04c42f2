// How the bytes of a payload hold fields, and messages laid out: document 01, "Commands", on payloads.
ghost use Rattle.std.specs.Prelude.{◌≡◌, ◌<◌, ◌+◌, ◌*◌, ◌/◌, ◌%◌, ◌&&◌, [], ◌∷◌, leb, length, take};
ghost use Rattle.command.specs.Fields.{octets, word_at, word as word_layout, pwm as pwm_layout, mode_of, pwm_fields};
ghost use Rattle.command.specs.Commands.{numbered, parts_by};

use crate::{Parts, Pwm};

// A PWM word taken apart.
pub fn pwm_of(w: u16) -> Pwm
    ensures { (mode_of result ≡ w / 32768) × (result.duty ≡ w % 32768) }
{
    Pwm {
        day: 32768 <= w,
        duty: w % 32768,
    }
}

// The PWM word of two bytes, high byte first.
pub fn pwm_from(high: u8, low: u8) -> Pwm
    ensures { (mode_of result ≡ (high * 256 + low) / 32768) × (result.duty ≡ (high * 256 + low) % 32768) }
{
    pwm_of(bits::word(high, low))
}

// The PWM word at an index of a payload.
pub(crate) fn pwm_at(p: &[u8], i: usize) -> Pwm
    requires { i + 1 < length p.now }
    ensures { (mode_of result ≡ word_at p.now i / 32768) × (result.duty ≡ word_at p.now i % 32768) }
{
    pwm_from(p[i], p[i + 1])
}

// A message whose fields are single bytes, the first 8 of them at most.
pub fn octets_parts(number: u8, fields: &[u8]) -> Parts
    ensures { result ≡ parts_by octets (numbered number (take 8 fields.now)) }
{
    let size = fields.len().min(8);
    let mut bytes = [0; 8];
    bytes[..size].copy_from_slice(&fields[..size]);
    Parts {
        number,
        bytes,
        size,
        fit: true,
    }
}

// A message that holds one word.
pub fn word_parts(number: u8, w: u16) -> Parts
    ensures { result ≡ parts_by word_layout (numbered number (w ∷ [])) }
{
    octets_parts(number, &w.to_be_bytes())
}

// A PWM word put together. Only the low 15 bits of the duty fit.
fn pwm_word(x: Pwm) -> u16
    ensures { result ≡ mode_of x * 32768 + x.duty % 32768 }
{
    if x.day {
        return 32768 + x.duty % 32768;
    }
    x.duty % 32768
}

// Whether three duties are in range.
fn duties_fit(r: u16, g: u16, b: u16) -> bool
    ensures { result ≡ (leb r 32767 && (leb g 32767 && leb b 32767)) }
{
    r <= 32767 && g <= 32767 && b <= 32767
}

// A message that holds three PWM words.
pub fn pwm_parts(number: u8, r: Pwm, g: Pwm, b: Pwm) -> Parts
    ensures { result ≡ parts_by pwm_layout (numbered number (pwm_fields r g b)) }
{
    let u = pwm_word(r);
    let v = pwm_word(g);
    let w = pwm_word(b);
    let bytes = [
        bits::high(u),
        bits::low(u),
        bits::high(v),
        bits::low(v),
        bits::high(w),
        bits::low(w),
    ];
    Parts {
        fit: duties_fit(r.duty, g.duty, b.duty),
        ..octets_parts(number, &bytes)
    }
}
