// A chain of lamps in lent bytes (docs/RECORD.md): made, given telegrams and sensor reports, read out. Document 01, "A lamp and the
// chain".
#![tactic(auto)]

mod change;
mod delivery;
mod each_lamp;
mod init;
mod order;
mod record;

ghost use Rattle.std.specs.Prelude.{◌≡◌, length};
ghost use Rattle.telegram.specs.Numbers.{counted, leaves, outcome_of};
ghost use Rattle.chain.specs.Record.{length_for};
ghost use Rattle.chain.specs.Memory.{delivered, held, silent, made, sensed_in, lamp_read};

use delivery::deliver_valid;
use each_lamp::{fill, sense_one};
use order::ANSWER;
use record::{count_of, is_valid, load_lamp, put_header, slot_at};
use rules::{Defaults, Lamp, Place};
use telegram::Refusal;

// Which lamps a command for more than one reaches. (An `Option` of a group would not say that none is everyone.)
#[derive(Clone, Copy)]
pub(crate) enum Reach {
    Everyone,
    Members(u8),
}

// The length of the record of a count of lamps, 0 for a count that is refused. (docs/PROMISES.md names the function, and with `length_for`
// its 0.)
pub fn record_len(count: usize) -> usize
    ensures { result ≡ length_for count }
{
    if count < 1 || 1007 < count {
        return 0;
    }
    slot_at(Place(count))
}

// Makes a chain of fresh lamps. Refusals 11, then 9. Making and a sensor report are done with 0 bytes: all three calls answer alike.
pub fn make(mem: &mut [u8], count: usize, d: Defaults) -> Result<usize, Refusal>
    ensures answer { outcome_of result ≡ silent (made mem.old count d) }
    ensures memory { mem.new ≡ held mem.old (made mem.old count d) }
{
    let length = record_len(count);
    if length == 0 {
        return Err(Refusal::NoChain);
    }
    if mem.len() < length {
        return Err(Refusal::RoomTooSmall);
    }
    put_header(mem, count, d);
    fill(mem, count, lamp::fresh_lamp(d));
    Ok(0)
}

// Delivers a telegram to the chain, with a room for the answer. Refusals 9 (room under 12 bytes), 11, 1 to 8, 12.
pub fn deliver(mem: &mut [u8], telegram: &[u8], room: &mut [u8]) -> Result<usize, Refusal>
    ensures answer { outcome_of result ≡ counted (delivered mem.old telegram.now (length room.old)).outcome }
    ensures memory { mem.new ≡ (delivered mem.old telegram.now (length room.old)).memory }
    ensures room { room.new ≡ leaves (delivered mem.old telegram.now (length room.old)).outcome room.old }
{
    let Some(front) = room.first_chunk_mut::<ANSWER>() else {
        return Err(Refusal::RoomTooSmall);
    };
    if !is_valid(mem) {
        return Err(Refusal::NoChain);
    }
    deliver_valid(mem, telegram, front)
}

// A sensor report for a place. Refusals 11, 13, 10.
pub fn sense(mem: &mut [u8], place: Place, temperature: u8, faults: u32) -> Result<usize, Refusal>
    ensures answer { outcome_of result ≡ silent (sensed_in mem.old place.0 temperature faults) }
    ensures memory { mem.new ≡ held mem.old (sensed_in mem.old place.0 temperature faults) }
{
    if !is_valid(mem) {
        return Err(Refusal::NoChain);
    }
    if count_of(mem) <= place.0 {
        return Err(Refusal::NoLamp);
    }
    if 7 < faults {
        return Err(Refusal::OutOfRange);
    }
    sense_one(mem, place, temperature, faults as u8);
    Ok(0)
}

// Reads the lamp at a place out. Refusals 11, then 13.
pub fn read_lamp(mem: &[u8], place: Place) -> Result<Lamp, Refusal>
    ensures { outcome_of result ≡ lamp_read mem.now place.0 }
{
    if !is_valid(mem) {
        return Err(Refusal::NoChain);
    }
    if count_of(mem) <= place.0 {
        return Err(Refusal::NoLamp);
    }
    Ok(load_lamp(mem, place))
}
