// What a command does to lamps of the record: to one, to those that it reaches, to everyone.
ghost use Rattle.std.specs.Prelude.{◌≡◌, cond, ℕ, ◌+◌, ◌/◌, ◌%◌, ◌^◌, ◌≤◌, ◌<◌, eqb, length};
ghost use Rattle.command.specs.Fields.{word_at};
ghost use Rattle.rules.specs.declared.Lamp.{Lamp as LampType};
ghost use Rattle.rules.specs.Lamp.{changed, acted, obeys};
ghost use Rattle.slot.specs.Slot.{slot_size};
ghost use Rattle.chain.specs.Record.{slot_at};
ghost use Rattle.chain.specs.Places.{words_at, thresholds_at, lamp_at, with_lamp, sweep, reached, acted_in, gone, lit};
ghost use Rattle.chain.specs.Helpers.{command_in};

use crate::Reach;
use crate::each_lamp::sweep;
use crate::order::Order;
use crate::record::{load_lamp, store_lamp};
use lamp::with_state;
use rules::{Defaults, Lamp, Place, State, Thresholds, Words};

// The word at an index.
fn word_at(s: &[u8], i: usize) -> u16
    requires { i + 1 < length s.now }
    ensures { result ≡ word_at s.now i }
{
    bits::word(s[i], s[i + 1])
}

// The three PWM words from an index on.
fn words_at(s: &[u8], i: usize) -> Words
    requires { i + 5 < length s.now }
    ensures { result ≡ words_at s.now i }
{
    Words {
        red: word_at(s, i),
        green: word_at(s, i + 2),
        blue: word_at(s, i + 4),
    }
}

// The three thresholds from an index on.
fn thresholds_at(s: &[u8], i: usize) -> Thresholds
    requires { i + 2 < length s.now }
    ensures { result ≡ thresholds_at s.now i }
{
    Thresholds {
        cycle: s[i],
        low: s[i + 1],
        high: s[i + 2],
    }
}

// Does what a command says to the lamp at a place, an acknowledged one what its plain form says. Each arm loads and stores by itself: the
// compiler then stores only what changes.
fn alter(mem: &mut [u8], p: Place, d: Defaults, order: Order)
    requires { slot_at p.0 + slot_size ≤ length mem.old }
    ensures { mem.new ≡ with_lamp mem.old p.0 (changed d (command_in order.entry.number order.entry.payload.now) (lamp_at mem.old p.0)) }
{
    match order.number {
        0x00 => store_lamp(mem, p, lamp::blank_lamp(d, load_lamp(mem, p).temperature)),
        0x01 | 0x40 | 0x42 => {
            let l = load_lamp(mem, p);
            let flags = lamp::no_flags();
            store_lamp(mem, p, Lamp { flags, ..l });
        }
        0x04 | 0x24 => store_lamp(mem, p, with_state(load_lamp(mem, p), State::Sleep)),
        0x05 | 0x25 => store_lamp(mem, p, with_state(load_lamp(mem, p), State::Active)),
        0x06 | 0x26 => store_lamp(mem, p, with_state(load_lamp(mem, p), State::DeepSleep)),
        0x0D | 0x2D => {
            let l = load_lamp(mem, p);
            let groups = word_at(order.payload, 0);
            store_lamp(mem, p, Lamp { groups, ..l });
        }
        0x4B | 0x6B => {
            let l = load_lamp(mem, p);
            let thresholds = thresholds_at(order.payload, 0);
            store_lamp(mem, p, Lamp { thresholds, ..l });
        }
        0x4D | 0x6D => {
            let l = load_lamp(mem, p);
            let setup = order.payload[0];
            store_lamp(mem, p, Lamp { setup, ..l });
        }
        0x4F | 0x6F => {
            let l = load_lamp(mem, p);
            let pwm = words_at(order.payload, 0);
            store_lamp(mem, p, Lamp { pwm, ..l });
        }
        _ => {}
    }
}

// Does what a command says to the lamp at a place, if the lamp obeys it.
pub(crate) fn act(mem: &mut [u8], p: Place, d: Defaults, order: Order)
    requires { slot_at p.0 + slot_size ≤ length mem.old }
    ensures { mem.new ≡ with_lamp mem.old p.0 (acted d (command_in order.entry.number order.entry.payload.now) (lamp_at mem.old p.0)) }
{
    if lamp::heeds(order.number <= 0x01, load_lamp(mem, p).state) {
        alter(mem, p, d, order);
    }
}

// Whether bit g of a group word is set. (A word has no bit from 16 on.)
fn is_member(g: u8, groups: u16) -> bool
    ensures { result ≡ eqb (groups / 2 ^ g % 2) 1 }
{
    g < 16 && (groups >> g) % 2 == 1
}

// Whether a command reaches a lamp. Each reach has its arm: `matches!` would be no plainer.
#[tactic(auto, unfolding(rules::specs::Lamp::member))]
fn is_reached(reach: Reach, l: Lamp) -> bool
    ensures { result ≡ reached reach l }
{
    match reach {
        Reach::Everyone => true,
        Reach::Members(g) => is_member(g, l.groups),
    }
}

// Does what a command says to the lamp at a place, if it reaches the lamp.
fn act_reached(mem: &mut [u8], p: Place, d: Defaults, order: Order, reach: Reach)
    requires { slot_at p.0 + slot_size ≤ length mem.old }
    ensures { mem.new ≡ with_lamp mem.old p.0 (acted_in reach d (command_in order.entry.number order.entry.payload.now) (lamp_at mem.old p.0)) }
{
    if is_reached(reach, load_lamp(mem, p)) {
        act(mem, p, d, order);
    }
}

// Does what a command says to each lamp that it reaches.
pub(crate) fn act_lamps(mem: &mut [u8], count: usize, d: Defaults, order: Order, reach: Reach)
    requires { slot_at count ≤ length mem.old }
    ensures { mem.new ≡ sweep (λ (p : ℕ) (l : LampType). acted_in reach d (command_in order.entry.number order.entry.payload.now) l) 0 count mem.old }
{
    sweep(mem, count, |m, p| act_reached(m, p, d, order, reach));
}

// The state of a lamp that was told to go to a state.
fn state_after(state: State, s: State) -> State
    ensures { result ≡ cond (obeys 0x04 state) s state }
{
    if lamp::heeds(false, state) { s } else { state }
}

// Sets the state at a place, if the lamp heeds that. It stores either way: a loop of stores without a branch is faster.
fn go_one(mem: &mut [u8], p: Place, s: State)
    requires { slot_at p.0 + slot_size ≤ length mem.old }
    ensures { mem.new ≡ with_lamp mem.old p.0 (gone s (lamp_at mem.old p.0)) }
{
    let l = load_lamp(mem, p);
    store_lamp(mem, p, with_state(l, state_after(l.state, s)));
}

// Sets the state of each lamp that heeds that.
fn go_lamps(mem: &mut [u8], count: usize, s: State)
    requires { slot_at count ≤ length mem.old }
    ensures { mem.new ≡ sweep (λ (p : ℕ) (l : LampType). gone s l) 0 count mem.old }
{
    sweep(mem, count, |m, p| go_one(m, p, s));
}

// Sets the PWM words at a place, if the lamp heeds that.
fn light_one(mem: &mut [u8], p: Place, sent: Words)
    requires { slot_at p.0 + slot_size ≤ length mem.old }
    ensures { mem.new ≡ with_lamp mem.old p.0 (lit sent (lamp_at mem.old p.0)) }
{
    let l = load_lamp(mem, p);
    if lamp::heeds(false, l.state) {
        store_lamp(mem, p, Lamp { pwm: sent, ..l });
    }
}

// Sets the PWM words of each lamp that heeds that.
fn light_lamps(mem: &mut [u8], count: usize, sent: Words)
    requires { slot_at count ≤ length mem.old }
    ensures { mem.new ≡ sweep (λ (p : ℕ) (l : LampType). lit sent l) 0 count mem.old }
{
    sweep(mem, count, |m, p| light_one(m, p, sent));
}

// Does what a command says to everyone. The two that a board sends most, GO and SETPWM, have loops of their own, which decide nothing
// anew at each lamp.
pub(crate) fn act_everyone(mem: &mut [u8], count: usize, d: Defaults, order: Order)
    requires { slot_at count ≤ length mem.old }
    ensures { mem.new ≡ sweep (λ (p : ℕ) (l : LampType). acted d (command_in order.entry.number order.entry.payload.now) l) 0 count mem.old }
{
    match order.number {
        0x04 => go_lamps(mem, count, State::Sleep),
        0x05 => go_lamps(mem, count, State::Active),
        0x06 => go_lamps(mem, count, State::DeepSleep),
        0x4F => light_lamps(mem, count, words_at(order.payload, 0)),
        _ => act_lamps(mem, count, d, order, Reach::Everyone),
    }
}
