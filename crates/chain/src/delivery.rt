// The delivery of a telegram to a valid chain. That memory holds one is a `requires` of each function that begins with it and no ghost field
// of a struct, as record.rt says of a place; after a store nothing asks it. `send` and `initialise` tell the orders apart, and the functions that they
// call have what was found as a `requires`: that the number is an init's, that the address is in range.
ghost use Rattle.std.specs.Prelude.{◌≡◌, true, ◌≤◌, length, take};
ghost use Rattle.telegram.specs.Numbers.{done, reason_of, counted, front, leaves, outcome_of};
ghost use Rattle.telegram.specs.Telegram.{listed};
ghost use Rattle.table.specs.declared.Cast.TheVariants.{One};
ghost use Rattle.rules.specs.Chain.{answer_from, permitting};
ghost use Rattle.chain.specs.Record.{decode, chain_in};
ghost use Rattle.chain.specs.Places.{held_after};
ghost use Rattle.chain.specs.Helpers.{responded_in, refused_in, reached_in, command_in, sent_in, cast_of, walked_in, delivered_in};

use crate::Reach;
use crate::change::{act, act_everyone, act_lamps};
use crate::each_lamp::{find, mark_one};
use crate::init::{initialise, is_init, permit};
use crate::order::{ANSWER, Order};
use crate::record::{count_of, defaults_of, load_lamp};
use lamp::Payload;
use rules::Place;
use table::Cast;
use telegram::{Address, Refusal};

// Writes the answer of the lamp with an address; no bytes is no answer.
pub(crate) fn answer(
    a: Address,
    order: Order,
    payload: Payload,
    room: &mut [u8; ANSWER],
) -> Result<usize, Refusal>
    requires { (a.0 ≤ 1023) × (payload.size ≤ length payload.bytes) × (listed payload.size ≡ true) }
    ensures answer { outcome_of result ≡ counted (done (answer_from a.0 order.entry.number (take payload.size payload.bytes))) }
    ensures room { room.new ≡ front (answer_from a.0 order.entry.number (take payload.size payload.bytes)) room.old }
{
    if payload.size == 0 {
        return Ok(0);
    }
    telegram::build_telegram(a, order.number, &payload.bytes[..payload.size], room)
}

// Sends a command that is no init to everyone or to a group.
fn spread(mem: &mut [u8], order: Order, reach: Reach)
    requires { chain_in mem.old ≡ done (decode mem.old) }
    ensures { mem.new ≡ held_after mem.old (reached_in mem.old (command_in order.entry.number order.entry.payload.now) (cast_of reach)) }
{
    let count = count_of(mem);
    let d = defaults_of(mem);
    match reach {
        Reach::Everyone => act_everyone(mem, count, d, order),
        Reach::Members(_) => act_lamps(mem, count, d, order, reach),
    }
}

// Sends a command that is no init to one lamp.
fn unicast(
    mem: &mut [u8],
    order: Order,
    a: Address,
    room: &mut [u8; ANSWER],
) -> Result<usize, Refusal>
    requires { (chain_in mem.old ≡ done (decode mem.old)) × (a.0 ≤ 1023) }
    ensures answer { outcome_of result ≡ counted (reached_in mem.old (command_in order.entry.number order.entry.payload.now) (One a)).outcome }
    ensures memory { mem.new ≡ held_after mem.old (reached_in mem.old (command_in order.entry.number order.entry.payload.now) (One a)) }
    ensures room { room.new ≡ leaves (reached_in mem.old (command_in order.entry.number order.entry.payload.now) (One a)).outcome room.old }
{
    let count = count_of(mem);
    let Some(p) = find(mem, count, a) else {
        return Ok(0);
    };
    let told = answer(
        a,
        order,
        lamp::answer_bytes(order.number, load_lamp(mem, p)),
        room,
    );
    act(mem, p, defaults_of(mem), order);
    told
}

// Sends a permitted telegram along the lamps.
fn send(mem: &mut [u8], order: Order, room: &mut [u8; ANSWER]) -> Result<usize, Refusal>
    requires { (chain_in mem.old ≡ done (decode mem.old)) × (permitting (decode mem.old).lamps (sent_in order.number order.payload.now order.cast) ≡ done (sent_in order.number order.payload.now order.cast)) }
    ensures answer { outcome_of result ≡ counted (walked_in mem.old (sent_in order.entry.number order.entry.payload.now order.entry.cast)).outcome }
    ensures memory { mem.new ≡ held_after mem.old (walked_in mem.old (sent_in order.entry.number order.entry.payload.now order.entry.cast)) }
    ensures room { room.new ≡ leaves (walked_in mem.old (sent_in order.entry.number order.entry.payload.now order.entry.cast)).outcome room.old }
{
    if is_init(order.number) {
        return initialise(mem, order, room);
    }
    match order.cast {
        Cast::Everyone => {
            spread(mem, order, Reach::Everyone);
            Ok(0)
        }
        Cast::One(a) => unicast(mem, order, a, room),
        Cast::Group(g) => {
            spread(mem, order, Reach::Members(g));
            Ok(0)
        }
    }
}

// An accepted telegram. Refusals 7 for init at 000, then 12.
fn respond(mem: &mut [u8], order: Order, room: &mut [u8; ANSWER]) -> Result<usize, Refusal>
    requires { chain_in mem.old ≡ done (decode mem.old) }
    ensures answer { outcome_of result ≡ counted (responded_in mem.old (sent_in order.entry.number order.entry.payload.now order.entry.cast)).outcome }
    ensures memory { mem.new ≡ held_after mem.old (responded_in mem.old (sent_in order.entry.number order.entry.payload.now order.entry.cast)) }
    ensures room { room.new ≡ leaves (responded_in mem.old (sent_in order.entry.number order.entry.payload.now order.entry.cast)).outcome room.old }
{
    permit(mem, order)?;
    send(mem, order, room)
}

// A refused telegram. It changes nothing, but 5 sets CE on the lamp at place 0.
fn refuse(mem: &mut [u8], e: Refusal) -> Result<usize, Refusal>
    requires { chain_in mem.old ≡ done (decode mem.old) }
    ensures answer { outcome_of result ≡ counted (refused_in mem.old (reason_of e)).outcome }
    ensures memory { mem.new ≡ held_after mem.old (refused_in mem.old (reason_of e)) }
{
    if matches!(e, Refusal::Checksum(_, _)) {
        mark_one(mem, Place(0));
    }
    Err(e)
}

// Delivers a telegram to a valid chain, with room for an answer. Refusals 1 to 8, 12. (`let .. else`: a form that document 01 names.)
pub(crate) fn deliver_valid(
    mem: &mut [u8],
    telegram: &[u8],
    room: &mut [u8; ANSWER],
) -> Result<usize, Refusal>
    requires { chain_in mem.old ≡ done (decode mem.old) }
    ensures answer { outcome_of result ≡ counted (delivered_in mem.old telegram.now).outcome }
    ensures memory { mem.new ≡ held_after mem.old (delivered_in mem.old telegram.now) }
    ensures room { room.new ≡ leaves (delivered_in mem.old telegram.now).outcome room.old }
{
    let read = telegram::read_telegram(telegram);
    let Ok(t) = read else {
        return refuse(mem, telegram::refusal_of(read));
    };
    match command::heading_of(t) {
        Ok(cast) => {
            let order = Order {
                number: t.command,
                payload: &telegram[3..3 + t.size],
                cast,
            };
            respond(mem, order, room)
        }
        Err(e) => refuse(mem, e),
    }
}
