// What a function gives: the bytes of a telegram, a command, an answer or a lamp, written to the lent room where they fit.
ghost use Rattle.std.specs.Prelude.{◌≡◌, ◌+◌, ◌≤◌, ◌<◌, ◌++◌, length};
ghost use Rattle.telegram.specs.Numbers.{fitted, leaves};
ghost use Rattle.command.specs.Commands.{sent_as};
ghost use Rattle.answer.specs.Answers.{reply_of};
ghost use Rattle.reader.specs.Interface.{returned};
ghost use Rattle.osp.specs.Interface.{read_bytes, sent_bytes, reply_bytes, lamp_head, lamp_bytes};

use crate::casts::{kind_of, value_of};
use answer::Answered;
use command::Dissected;
use rules::{Lamp, State};
use telegram::Telegram;

// Writes a result, a head and a payload behind it, where there is room for both, else 9. (`reader` writes a pair too, which always fits.)
fn give(head: &[u8], payload: &[u8], out: &mut [u8]) -> u32
    requires { length head.now + length payload.now < 65536 }
    ensures value { result ≡ returned (fitted (length out.old) (head.now ++ payload.now)) }
    ensures out_after { out.new ≡ leaves (fitted (length out.old) (head.now ++ payload.now)) out.old }
{
    let h = head.len();
    let n = h + payload.len();
    if out.len() < n {
        return 9;
    }
    out[..h].copy_from_slice(head);
    out[h..n].copy_from_slice(payload);
    n as u32 * 256
}

// A payload size, which is at most 8, as a byte. No `try_from`: none of its callers has a size that it could refuse.
fn size_byte(n: usize) -> u8
    requires { n ≤ 8 }
    ensures { result ≡ n }
{
    n as u8
}

// Gives a telegram that was read.
pub(crate) fn give_telegram(s: &[u8], t: Telegram, out: &mut [u8]) -> u32
    requires { (3 + t.size ≤ length s.now) × (t.size ≤ 8) }
    ensures value { result ≡ returned (fitted (length out.old) (read_bytes s.now t)) }
    ensures out_after { out.new ≡ leaves (fitted (length out.old) (read_bytes s.now t)) out.old }
{
    let a = t.address.0;
    let head = [bits::high(a), bits::low(a), t.command, size_byte(t.size)];
    give(&head, &s[3..3 + t.size], out)
}

// Gives a dissected command.
pub(crate) fn give_command(d: Dissected, out: &mut [u8]) -> u32
    ensures value { result ≡ returned (fitted (length out.old) (sent_bytes (sent_as d))) }
    ensures out_after { out.new ≡ leaves (fitted (length out.old) (sent_bytes (sent_as d))) out.old }
{
    let parts = command::command_parts(d.command);
    let value = value_of(d.cast);
    let head = [
        parts.number,
        kind_of(d.cast),
        bits::high(value),
        bits::low(value),
        size_byte(parts.size),
    ];
    give(&head, parts.payload(), out)
}

// Gives a dissected answer.
pub(crate) fn give_answer(d: Answered, out: &mut [u8]) -> u32
    ensures value { result ≡ returned (fitted (length out.old) (reply_bytes (reply_of d))) }
    ensures out_after { out.new ≡ leaves (fitted (length out.old) (reply_bytes (reply_of d))) out.old }
{
    let parts = answer::answer_parts(d.answer);
    let a = d.address.0;
    let head = [
        parts.number,
        bits::high(a),
        bits::low(a),
        size_byte(parts.size),
    ];
    give(&head, parts.payload(), out)
}

// The bytes of a lamp before its PWM bytes.
fn lamp_head(l: Lamp) -> [u8; 12]
    ensures { result ≡ lamp_head l }
{
    let t = l.thresholds;
    [
        bits::high(l.address.0),
        bits::low(l.address.0),
        lamp::state_number(l.state),
        lamp::bit_number(l.direction),
        lamp::status_byte(State::Uninitialized, false, l.flags),
        l.temperature,
        t.cycle,
        t.low,
        t.high,
        l.setup,
        bits::high(l.groups),
        bits::low(l.groups),
    ]
}

// Gives a lamp that was read out.
pub(crate) fn give_lamp(l: Lamp, out: &mut [u8]) -> u32
    ensures value { result ≡ returned (fitted (length out.old) (lamp_bytes l)) }
    ensures out_after { out.new ≡ leaves (fitted (length out.old) (lamp_bytes l)) out.old }
{
    let head = lamp_head(l);
    let w = l.pwm;
    let pwm = [
        bits::high(w.red),
        bits::low(w.red),
        bits::high(w.green),
        bits::low(w.green),
        bits::high(w.blue),
        bits::low(w.blue),
    ];
    give(&head, &pwm, out)
}
