// The record in lent bytes (docs/RECORD.md): its header, the slot of each place, and whether it holds a valid chain. That memory has a
// place is a `requires` of each function, here and in the files beside it. A struct of the `&mut` slice with a ghost field would be no
// plainer: a method assumes the fact, but proves it anew after each store, and needs a clause that the reference stays the same.
ghost use Rattle.std.specs.Prelude.{◌≡◌, cond, ◌++◌, ◌+◌, ◌^◌, ◌≤◌, ◌<◌, eqb, length, take, drop};
ghost use Rattle.telegram.specs.Numbers.{refused, done};
ghost use Rattle.rules.specs.Chain.{lamp_right, lamps_right};
ghost use Rattle.slot.specs.Slot.{slot_size, lamp_of};
ghost use Rattle.chain.specs.Record.{slot_at, header_of, header_size, count_of, defaults_of, lamps_in, decode, chain_in};
ghost use Rattle.chain.specs.Places.{lamp_at, with_lamp};

use crate::record_len;
use rules::{Defaults, Lamp, Place, Thresholds};
use telegram::Address;

// How many bytes the header has.
const HEADER: usize = 6;

// Where the slot of a place begins.
pub(crate) fn slot_at(p: Place) -> usize
    requires { slot_at p.0 < 2 ^ 64 }
    ensures { result ≡ slot_at p.0 }
{
    HEADER + slot::SIZE * p.0
}

// The slot of a place: the bytes of the lamp there.
#[tactic(auto, using(crate::proofs::Slots::lamp_in_slot))]
fn slot_bytes(mem: &[u8], p: Place) -> [u8; slot::SIZE]
    requires { slot_at p.0 + slot_size ≤ length mem.now }
    ensures { lamp_of result ≡ lamp_at mem.now p.0 }
{
    let at = slot_at(p);
    let end = at + slot::SIZE;
    let mut bytes = [0u8; slot::SIZE];
    bytes.copy_from_slice(&mem[at..end]);
    bytes
}

// The lamp at a place.
pub(crate) fn load_lamp(mem: &[u8], p: Place) -> Lamp
    requires { slot_at p.0 + slot_size ≤ length mem.now }
    ensures { result ≡ lamp_at mem.now p.0 }
{
    slot::lamp_of(slot_bytes(mem, p))
}

// The address of the lamp at a place.
pub(crate) fn load_address(mem: &[u8], p: Place) -> Address
    requires { slot_at p.0 + slot_size ≤ length mem.now }
    ensures { result ≡ (lamp_at mem.now p.0).address }
{
    slot::address_of(slot_bytes(mem, p))
}

// Whether the lamp at a place has an address.
pub(crate) fn has_address(mem: &[u8], p: Place, a: Address) -> bool
    requires { slot_at p.0 + slot_size ≤ length mem.now }
    ensures { result ≡ eqb (lamp_at mem.now p.0).address.0 a.0 }
{
    slot::has_address(slot_bytes(mem, p), a)
}

// Copies `src` into the record, from the index `at` on. (`telegram` has the same for itself: a public one could have no `requires`.)
fn put_bytes(mem: &mut [u8], at: usize, src: &[u8])
    requires { at + length src.now ≤ length mem.old }
    ensures { mem.new ≡ (take at mem.old ++ src.now) ++ drop (at + length src.now) mem.old }
{
    mem[at..at + src.len()].copy_from_slice(src);
}

// Stores a lamp at a place.
pub(crate) fn store_lamp(mem: &mut [u8], p: Place, l: Lamp)
    requires { slot_at p.0 + slot_size ≤ length mem.old }
    ensures { mem.new ≡ with_lamp mem.old p.0 l }
{
    put_bytes(mem, slot_at(p), &slot::slot_of(l));
}

// The lamp count in a header.
#[tactic(auto, unfolding(crate::specs::Record::count_of))]
pub(crate) fn count_of(mem: &[u8]) -> usize
    requires { header_size ≤ length mem.now }
    ensures { result ≡ count_of mem.now }
{
    bits::word(mem[0], mem[1]) as usize
}

// The defaults in a header.
#[tactic(auto, unfolding(crate::specs::Record::defaults_of))]
pub(crate) fn defaults_of(mem: &[u8]) -> Defaults
    requires { header_size ≤ length mem.now }
    ensures { result ≡ defaults_of mem.now }
{
    Defaults {
        setup: mem[2],
        thresholds: Thresholds {
            cycle: mem[3],
            low: mem[4],
            high: mem[5],
        },
    }
}

// Writes a header.
#[tactic(auto, unfolding(crate::specs::Record::header_of))]
pub(crate) fn put_header(mem: &mut [u8], count: usize, d: Defaults)
    requires { (count ≤ 1007) × (header_size ≤ length mem.old) }
    ensures { mem.new ≡ header_of count d ++ drop header_size mem.old }
{
    let n = count as u16;
    let t = d.thresholds;
    let b = [bits::high(n), bits::low(n), d.setup, t.cycle, t.low, t.high];
    put_bytes(mem, 0, &b);
}

// Whether the lamp at a place is valid.
fn lamp_right(mem: &[u8], p: Place) -> bool
    requires { slot_at p.0 + slot_size ≤ length mem.now }
    ensures { result ≡ lamp_right (lamp_at mem.now p.0) }
{
    slot::is_right(slot_bytes(mem, p))
}

// Whether each lamp is valid. No lamp ends the loop, so that it has no branch. (`sweep` is for what changes the lamps.)
fn lamps_right(mem: &[u8], count: usize) -> bool
    requires { slot_at count ≤ length mem.now }
    ensures { result ≡ lamps_right (lamps_in count mem.now) }
{
    let mut right = true;
    for i in 0..count {
        right = bits::and(right, lamp_right(mem, Place(i)));
    }
    right
}

// Whether memory holds a valid chain.
pub(crate) fn is_valid(mem: &[u8]) -> bool
    ensures { cond result (done (decode mem.now)) (refused 11) ≡ chain_in mem.now }
{
    if mem.len() < HEADER {
        return false;
    }
    let count = count_of(mem);
    let length = record_len(count);
    if length == 0 {
        return false;
    }
    if mem.len() < length {
        return false;
    }
    lamps_right(mem, count)
}
