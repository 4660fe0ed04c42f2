// The lamps of the record, one after the other: the lookup, and what is done at each place without a command. Each function for one lamp, here
// and in change.rt and init.rt, loads and stores by itself. A sweep over a closure from lamp to lamp would save each of them a line, but it
// stores a lamp also where it stays as it is, which made `light_lamps` slower where that was tried (in Rust). The count is read before a
// sweep and handed on: read again after it, it would have to be proved the same.
ghost use Rattle.std.specs.Prelude.{◌≡◌, ℕ, ◌+◌, ◌≤◌, ◌<◌, length};
ghost use Rattle.rules.specs.declared.Lamp.{Lamp as LampType};
ghost use Rattle.rules.specs.Lamp.{sensed, with_ce};
ghost use Rattle.rules.specs.Chain.{any_unaddressed};
ghost use Rattle.slot.specs.Slot.{slot_size};
ghost use Rattle.chain.specs.Record.{slot_at, lamps_in};
ghost use Rattle.chain.specs.Places.{lamp_at, with_lamp, sweep, place_from};

use crate::record::{has_address, load_address, load_lamp, store_lamp};
use rules::{Lamp, Place};
use telegram::Address;

// The lookup: the first lamp with an address.
pub(crate) fn find(mem: &[u8], count: usize, a: Address) -> Option<Place>
    requires { slot_at count ≤ length mem.now }
    ensures { result ≡ place_from 0 a.0 (lamps_in count mem.now) }
{
    for i in 0..count {
        if has_address(mem, Place(i), a) {
            return Some(Place(i));
        }
    }
    None
}

// Whether any lamp has no address. No lamp ends the loop, so that it has no branch. (`sweep` is for what changes the lamps.)
pub(crate) fn any_unaddressed(mem: &[u8], count: usize) -> bool
    requires { slot_at count ≤ length mem.now }
    ensures { result ≡ any_unaddressed (lamps_in count mem.now) }
{
    let mut any = false;
    for i in 0..count {
        any = bits::or(any, load_address(mem, Place(i)).0 == 0x3FF);
    }
    any
}

// Does something at each place, one after the other. What it does to the lamp at each place, the sweep does to all. (Inlined: what the closure
// has is then read once, and not again at each place.)
#[inline(always)]
pub(crate) fn sweep<F: Fn(&mut [u8], Place)>(mem: &mut [u8], count: usize, each: F)
    requires room { slot_at count ≤ length mem.old }
    requires calls { (m : _) (p : _) → p.0 < count → slot_at p.0 + slot_size ≤ length m.now → F.pre each m p }
    ensures { (rule : ℕ → LampType → LampType) → ((m : _) (p : _) (m' : _) → p.0 < count → F.post each m p tt m' → m'.now ≡ with_lamp m.now p.0 (rule p.0 (lamp_at m.now p.0))) → mem.new ≡ sweep rule 0 count mem.old }
{
    for i in 0..count {
        each(mem, Place(i));
    }
}

// Stores a lamp at each place.
pub(crate) fn fill(mem: &mut [u8], count: usize, l: Lamp)
    requires { slot_at count ≤ length mem.old }
    ensures { mem.new ≡ sweep (λ (p : ℕ) (x : LampType). l) 0 count mem.old }
{
    sweep(mem, count, |m, p| store_lamp(m, p, l));
}

// Sets CE at a place.
pub(crate) fn mark_one(mem: &mut [u8], p: Place)
    requires { slot_at p.0 + slot_size ≤ length mem.old }
    ensures { mem.new ≡ with_lamp mem.old p.0 (with_ce (lamp_at mem.old p.0)) }
{
    let l = load_lamp(mem, p);
    let flags = lamp::marked_flags(l.flags);
    store_lamp(mem, p, Lamp { flags, ..l });
}

// Sets CE on each lamp.
pub(crate) fn mark_lamps(mem: &mut [u8], count: usize)
    requires { slot_at count ≤ length mem.old }
    ensures { mem.new ≡ sweep (λ (p : ℕ) (l : LampType). with_ce l) 0 count mem.old }
{
    sweep(mem, count, mark_one);
}

// Stores a temperature and flags at a place.
pub(crate) fn sense_one(mem: &mut [u8], p: Place, temperature: u8, faults: u8)
    requires { slot_at p.0 + slot_size ≤ length mem.old }
    ensures { mem.new ≡ with_lamp mem.old p.0 (sensed temperature faults (lamp_at mem.old p.0)) }
{
    store_lamp(
        mem,
        p,
        lamp::sensed_lamp(load_lamp(mem, p), temperature, faults),
    );
}
