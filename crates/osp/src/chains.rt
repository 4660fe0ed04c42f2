// The functions on a chain in a record: its length, making, delivery, sensor reports, reading a lamp out.
ghost use Rattle.std.specs.Prelude.{◌≡◌, length};
ghost use Rattle.telegram.specs.Numbers.{leaves};
ghost use Rattle.chain.specs.Memory.{delivered, held, made, sensed_in};
ghost use Rattle.reader.specs.Interface.{returned};
ghost use Rattle.osp.specs.Interface.{osp_record_len, defaults_from, returned_bare, osp_lamp};

use crate::given::give_lamp;
use crate::returned::{delivered_returned, refusal_returned};
use rules::{Defaults, Place, Thresholds};

// The length of the record of a chain.
pub fn osp_record_len(count: u32) -> u32
    ensures { result ≡ osp_record_len count }
{
    chain::record_len(count as usize) as u32
}

// Makes a chain: 11, then 9.
pub fn osp_make(mem: &mut [u8], count: u32, setup: u8, t0: u8, t1: u8, t2: u8) -> u32
    ensures value { result ≡ returned_bare (made mem.old count (defaults_from setup t0 t1 t2)) }
    ensures mem_after { mem.new ≡ held mem.old (made mem.old count (defaults_from setup t0 t1 t2)) }
{
    let thresholds = Thresholds {
        cycle: t0,
        low: t1,
        high: t2,
    };
    let d = Defaults { setup, thresholds };
    delivered_returned(chain::make(mem, count as usize, d))
}

// Delivers a telegram: 9, 11, 1 to 8, 12.
pub fn osp_deliver(mem: &mut [u8], s: &[u8], out: &mut [u8]) -> u32
    ensures value { result ≡ returned (delivered mem.old s.now (length out.old)).outcome }
    ensures mem_after { mem.new ≡ (delivered mem.old s.now (length out.old)).memory }
    ensures out_after { out.new ≡ leaves (delivered mem.old s.now (length out.old)).outcome out.old }
{
    delivered_returned(chain::deliver(mem, s, out))
}

// A sensor report: 11, 13, 10.
pub fn osp_sense(mem: &mut [u8], place: u32, temperature: u8, faults: u32) -> u32
    ensures value { result ≡ returned_bare (sensed_in mem.old place temperature faults) }
    ensures mem_after { mem.new ≡ held mem.old (sensed_in mem.old place temperature faults) }
{
    delivered_returned(chain::sense(mem, Place(place as usize), temperature, faults))
}

// Reads a lamp out: 11, 13, then 9.
#[tactic(auto, unfolding(crate::specs::Interface::osp_lamp))]
pub fn osp_lamp(mem: &[u8], place: u32, out: &mut [u8]) -> u32
    ensures value { result ≡ returned (osp_lamp mem.now place (length out.old)) }
    ensures out_after { out.new ≡ leaves (osp_lamp mem.now place (length out.old)) out.old }
{
    match chain::read_lamp(mem, Place(place as usize)) {
        Ok(l) => give_lamp(l, out),
        Err(e) => refusal_returned(e),
    }
}
