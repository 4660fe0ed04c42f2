// The common case of a reader: nothing is carried, and the next telegram lies whole in the chunk. It is given as it lies there, and only
// the position moves.
ghost use Rattle.std.specs.Prelude.{◌≡◌, ◌+◌, ◌≤◌, true, ◌++◌, length, take, drop};
ghost use Rattle.telegram.specs.Numbers.{done, leaves, outcome_of};
ghost use Rattle.telegram.specs.Telegram.{reading};
ghost use Rattle.telegram.specs.declared.Telegram.{Telegram};
ghost use Rattle.capture.specs.State.{zeros};
ghost use Rattle.reader.specs.Layout.{reader_size, position_bytes};
ghost use Rattle.reader.specs.Resting.{AtRest};
ghost use Rattle.reader.specs.Interface.{returned, reader_next};

use crate::found::position_in;
use crate::kept::position_bytes;
use telegram::Telegram;

// Whether every byte of a slice is zero. The fold has no branch, where `all` would stop at the first byte that is not.
fn all_zero(s: &[u8]) -> bool
    ensures { result ≡ zeros s.now }
{
    s.iter().fold(true, |clear, b| clear & (*b == 0))
}

// Whether memory holds an open reading that carries nothing.
fn at_rest(reader: &[u8]) -> bool
    ensures { result ≡ true → AtRest reader.now }
{
    21 <= reader.len() && reader[0] == 0 && reader[1] == 0 && all_zero(&reader[10..21])
}

// The telegram at an index of a chunk, where it lies whole there and the telegram reader accepts it; else none.
fn read_at(chunk: &[u8], at: usize) -> Option<Telegram>
    ensures { (t : Telegram) → result ≡ Some t → reading (take (4 + t.size) (drop at chunk.now)) ≡ done t }
{
    let n = chunk.len();
    if n <= at || n - at < 4 {
        return None;
    }
    let index = telegram::index_in(chunk[at + 1], chunk[at + 2]);
    let total = 4 + telegram::size_of(index);
    if n - at < total {
        return None;
    }
    telegram::read_telegram(&chunk[at..at + total]).ok()
}

// The telegram that is given as it lies in the chunk, where nothing is carried; else none.
pub(crate) fn read_whole(reader: &[u8], chunk: &[u8], at: usize) -> Option<Telegram>
    ensures { (t : Telegram) → result ≡ Some t → AtRest reader.now × (reading (take (4 + t.size) (drop at chunk.now)) ≡ done t) }
{
    if at_rest(reader) {
        read_at(chunk, at)
    } else {
        None
    }
}

// Puts a position into bytes 2 to 9.
fn put_position(p: u64, reader: &mut [u8])
    requires { reader_size ≤ length reader.old }
    ensures { reader.new ≡ (take 2 reader.old ++ position_bytes p) ++ drop 10 reader.old }
{
    reader[2..10].copy_from_slice(&position_bytes(p));
}

// Gives a telegram of the chunk, where there is room for it, else 9. Nothing was carried, and nothing is.
pub(crate) fn pass(
    t: Telegram,
    chunk: &[u8],
    reader: &mut [u8],
    at: &mut usize,
    out: &mut [u8],
) -> u32
    requires { AtRest reader.old × (reading (take (4 + t.size) (drop at.old chunk.now)) ≡ done t) }
    ensures value { result ≡ returned (reader_next reader.old chunk.now at.old (length out.old)).outcome }
    ensures reader_after { reader.new ≡ (reader_next reader.old chunk.now at.old (length out.old)).memory }
    ensures at_after { at.new ≡ (reader_next reader.old chunk.now at.old (length out.old)).at }
    ensures out_after { out.new ≡ leaves (reader_next reader.old chunk.now at.old (length out.old)).outcome out.old }
{
    let total = 4 + t.size;
    if out.len() < total {
        return 9;
    }
    let from = *at;
    let end = from + total;
    out[..total].copy_from_slice(&chunk[from..end]);
    let p = position_in(reader).wrapping_add(total as u64);
    put_position(p, reader);
    *at = end;
    total as u32 * 256
}
