// A whole chunk, byte by byte: how many telegrams it completes, and where reading stands after it.
ghost use Rattle.std.specs.Prelude.{◌≡◌, true, length};
ghost use Rattle.capture.specs.State.{state_of, standing_of, going, is_left};
ghost use Rattle.capture.specs.Run.{fed, run, telegrams_in};

use crate::gather::next_open;
use crate::{Phase, Reading};

// One byte more for an open reading.
fn feed(s: Reading, b: u8) -> Reading
    requires { (is_left (state_of s) ≡ true) × (standing_of s.phase ≡ going) }
    ensures { (state_of result ≡ fed (state_of s) b) × (is_left (state_of result) ≡ true) }
{
    next_open(&[b], s, 0).reading
}

// How many telegrams a chunk completed, the position of the first byte that belongs to none, and the reading after it.
#[derive(Clone, Copy)]
pub(crate) struct Tally {
    pub telegrams: usize,
    pub position: u64,
    pub reading: Reading,
}

// Reads the telegrams of a chunk, byte by byte, up to its end or to the position of the first refused one. The loop over telegrams and the
// byte loop inside it, left by the label, are a form of the paper (docs/DECISIONS.md); they share the bytes that are left.
#[tactic(auto, using(crate::proofs::Feeding::tells, crate::proofs::Runs::stays))]
pub(crate) fn scan_open(chunk: &[u8], carried: Reading) -> Tally
    requires { (is_left (state_of carried) ≡ true) × (standing_of carried.phase ≡ going) }
    ensures telegrams_value { result.telegrams ≡ length (telegrams_in (state_of carried) chunk.now) }
    ensures position_value { (result.position ≡ (run (state_of carried) chunk.now).position) × (state_of result.reading ≡ run (state_of carried) chunk.now) }
{
    let mut s = carried;
    let mut bytes = chunk.iter();
    let mut n = 0;
    let position: u64 = 'telegrams: loop {
        loop {
            let Some(b) = bytes.next() else {
                break 'telegrams s.position;
            };
            s = feed(s, *b);
            match s.phase {
                Phase::Open => {
                    if s.count == 0 {
                        n += 1;
                        break;
                    }
                }
                Phase::Ended | Phase::Stopped(_) => {
                    break 'telegrams s.position;
                }
            }
        }
    };
    Tally {
        telegrams: n,
        position,
        reading: s,
    }
}
