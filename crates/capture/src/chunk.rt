// A reader over a lent chunk, which remembers where it stands: the chunk, what the chunk before left, and the index of the next byte.
// docs/PROMISES.md and docs/DECISIONS.md name what works on it as functions, so they are no methods.
ghost use Rattle.std.specs.Prelude.{◌≡◌};
ghost use Rattle.capture.specs.State.{state_of};
ghost use Rattle.capture.specs.Calls.{next_as, nexting};

use crate::{Next, Reading, next_at};

#[derive(Clone, Copy)]
pub struct Reader<'a> {
    pub chunk: &'a [u8],
    pub carried: Reading,
    pub at: usize,
}

// The reader of a chunk, from its start.
pub fn over_chunk<'a>(chunk: &'a [u8], carried: Reading) -> Reader<'a>
    ensures { (result.chunk ≡ chunk.entry) × (result.carried ≡ carried) × (result.at ≡ 0) }
{
    Reader {
        chunk,
        carried,
        at: 0,
    }
}

// The next telegram.
pub fn read_next<'a>(r: Reader<'a>) -> Next
    ensures { next_as result ≡ nexting r.entry.chunk.now (state_of r.entry.carried) r.entry.at }
{
    next_at(r.chunk, r.carried, r.at)
}

// The reader as that call left it.
pub fn advanced<'a>(r: Reader<'a>, n: Next) -> Reader<'a>
    ensures { (result.chunk ≡ r.entry.chunk) × (result.carried ≡ n.reading) × (result.at ≡ n.at) }
{
    Reader {
        chunk: r.chunk,
        carried: n.reading,
        at: n.at,
    }
}
