// Init: whether it is permitted, and what it does, from a first address and at 000. What it asks of memory is a `requires`: see record.rt.
ghost use Rattle.std.specs.Prelude.{◌≡◌, true, List, ℕ, ◌+◌, ◌-◌, ◌≤◌, length};
ghost use Rattle.telegram.specs.Numbers.{done, counted, front, leaves, outcome_of};
ghost use Rattle.table.specs.declared.Cast.TheVariants.{Everyone, One};
ghost use Rattle.command.specs.Commands.{Sent};
ghost use Rattle.rules.specs.declared.Lamp.{Lamp as LampType};
ghost use Rattle.rules.specs.Lamp.{numbered_as, report};
ghost use Rattle.rules.specs.Chain.{answer_from, is_init, permitting_init, permitting};
ghost use Rattle.slot.specs.Slot.{slot_size};
ghost use Rattle.chain.specs.Record.{slot_at, count_of, decode, chain_in};
ghost use Rattle.chain.specs.Places.{lamp_at, with_lamp, sweep, held_after};
ghost use Rattle.chain.specs.Helpers.{init_of, sent_in, walked_in, permit_as};

use crate::delivery::answer;
use crate::each_lamp::{any_unaddressed, mark_lamps, sweep};
use crate::order::{ANSWER, Order};
use crate::record::{count_of, load_lamp, store_lamp};
use rules::{Lamp, Place, State};
use table::Cast;
use telegram::{Address, Refusal};

// Numbers the lamp at a place: gives it an address.
fn number_one(mem: &mut [u8], p: Place, n: u8, a: Address)
    requires { slot_at p.0 + slot_size ≤ length mem.old }
    ensures { mem.new ≡ with_lamp mem.old p.0 (numbered_as n a.0 (lamp_at mem.old p.0)) }
{
    let l = Lamp {
        address: a,
        state: State::Sleep,
        direction: n == 0x03,
        ..load_lamp(mem, p)
    };
    store_lamp(mem, p, l);
}

// Numbers all lamps: the init rule. It gives place p the address first + p.
fn number_lamps(mem: &mut [u8], count: usize, n: u8, first: Address)
    requires { (slot_at count ≤ length mem.old) × (first.0 + count ≤ 0x3F0) }
    ensures { mem.new ≡ sweep (λ (p : ℕ) (l : LampType). numbered_as n (first.0 + p) l) 0 count mem.old }
{
    sweep(
        mem,
        count,
        |m, p| number_one(m, p, n, Address(first.0 + p.0 as u16)),
    );
}

// The last lamp answers an init: temperature and status, with an address.
fn answer_last(
    mem: &[u8],
    count: usize,
    a: Address,
    order: Order,
    room: &mut [u8; ANSWER],
) -> Result<usize, Refusal>
    requires { (1 ≤ count) × (slot_at count ≤ length mem.now) × (a.0 ≤ 1023) }
    ensures answer { outcome_of result ≡ counted (done (answer_from a.0 order.entry.number (report (lamp_at mem.now (count - 1))))) }
    ensures room { room.new ≡ front (answer_from a.0 order.entry.number (report (lamp_at mem.now (count - 1)))) room.old }
{
    let l = load_lamp(mem, Place(count - 1));
    answer(a, order, lamp::report_bytes(l), room)
}

// Whether a number is an init's. (A line, by the rules' own definition; the tool asks the table.)
#[tactic(auto, unfolding(rules::specs::Chain::is_init))]
pub(crate) fn is_init(n: u8) -> bool
    ensures { result ≡ is_init n }
{
    n == 0x02 || n == 0x03
}

// Whether an init may number the lamps from an address: 12 where it would run past 3EF.
fn permit_from(mem: &[u8], first: Address) -> Result<(), Refusal>
    requires { (chain_in mem.now ≡ done (decode mem.now)) × (first.0 ≤ 0x3EF) }
    ensures { (t : Sent) → permit_as result t ≡ permitting_init (decode mem.now).lamps t (One first) }
{
    if 0x3EF < first.0 as usize + count_of(mem) - 1 {
        return Err(Refusal::InitPastEnd);
    }
    Ok(())
}

// Whether an init at 000 may be done: 7 while a lamp has no address.
fn permit_all(mem: &[u8]) -> Result<(), Refusal>
    requires { chain_in mem.now ≡ done (decode mem.now) }
    ensures { (t : Sent) → permit_as result t ≡ permitting_init (decode mem.now).lamps t Everyone }
{
    if any_unaddressed(mem, count_of(mem)) {
        return Err(Refusal::CastNotAllowed);
    }
    Ok(())
}

// What delivery itself refuses of an accepted telegram, before anything moves: an init by 7 and 12.
pub(crate) fn permit(mem: &[u8], order: Order) -> Result<(), Refusal>
    requires { chain_in mem.now ≡ done (decode mem.now) }
    ensures { permit_as result (sent_in order.entry.number order.entry.payload.now order.entry.cast) ≡ permitting (decode mem.now).lamps (sent_in order.entry.number order.entry.payload.now order.entry.cast) }
{
    if !is_init(order.number) {
        return Ok(());
    }
    match order.cast {
        Cast::Everyone => permit_all(mem),
        Cast::One(first) => permit_from(mem, first),
        Cast::Group(_) => Err(Refusal::CastNotAllowed),
    }
}

// Init from a first address.
fn init_from(
    mem: &mut [u8],
    order: Order,
    first: Address,
    room: &mut [u8; ANSWER],
) -> Result<usize, Refusal>
    requires { (chain_in mem.old ≡ done (decode mem.old)) × (is_init order.number ≡ true) × (first.0 + count_of mem.old ≤ 0x3F0) }
    ensures answer { outcome_of result ≡ counted (walked_in mem.old (init_of order.entry.number (One first))).outcome }
    ensures memory { mem.new ≡ held_after mem.old (walked_in mem.old (init_of order.entry.number (One first))) }
    ensures room { room.new ≡ leaves (walked_in mem.old (init_of order.entry.number (One first))).outcome room.old }
{
    let count = count_of(mem);
    let last = first.0 as usize + count - 1;
    number_lamps(mem, count, order.number, first);
    answer_last(mem, count, Address(last as u16), order, room)
}

// Init at 000.
fn init_all(mem: &mut [u8], order: Order, room: &mut [u8; ANSWER]) -> Result<usize, Refusal>
    requires { (chain_in mem.old ≡ done (decode mem.old)) × (is_init order.number ≡ true) }
    ensures answer { outcome_of result ≡ counted (walked_in mem.old (init_of order.entry.number Everyone)).outcome }
    ensures memory { mem.new ≡ held_after mem.old (walked_in mem.old (init_of order.entry.number Everyone)) }
    ensures room { room.new ≡ leaves (walked_in mem.old (init_of order.entry.number Everyone)).outcome room.old }
{
    let count = count_of(mem);
    if order.number == 0x02 {
        mark_lamps(mem, count);
    }
    answer_last(mem, count, Address(0), order, room)
}

// An init that is permitted; one for a group never is.
pub(crate) fn initialise(
    mem: &mut [u8],
    order: Order,
    room: &mut [u8; ANSWER],
) -> Result<usize, Refusal>
    requires { (chain_in mem.old ≡ done (decode mem.old)) × (is_init order.number ≡ true) × (permitting (decode mem.old).lamps (init_of order.number order.cast) ≡ done (init_of order.number order.cast)) }
    ensures answer { outcome_of result ≡ counted (walked_in mem.old (init_of order.entry.number order.entry.cast)).outcome }
    ensures memory { mem.new ≡ held_after mem.old (walked_in mem.old (init_of order.entry.number order.entry.cast)) }
    ensures room { room.new ≡ leaves (walked_in mem.old (init_of order.entry.number order.entry.cast)).outcome room.old }
{
    match order.cast {
        Cast::Everyone => init_all(mem, order, room),
        Cast::One(first) => init_from(mem, order, first, room),
        Cast::Group(_) => Ok(0),
    }
}
