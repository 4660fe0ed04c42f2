// The reader of a capture: the next telegram of a chunk, the end of the run, the position. The crate `reader` has them.
ghost use Rattle.std.specs.Prelude.{◌≡◌, length};
ghost use Rattle.telegram.specs.Numbers.{leaves};
ghost use Rattle.reader.specs.Interface.{returned, reader_next, reader_end, reader_position};

// The next telegram of a chunk: 11, the reader's own refusals, then 9.
pub fn osp_reader_next(reader: &mut [u8], chunk: &[u8], at: &mut usize, out: &mut [u8]) -> u32
    ensures value { result ≡ returned (reader_next reader.old chunk.now at.old (length out.old)).outcome }
    ensures reader_after { reader.new ≡ (reader_next reader.old chunk.now at.old (length out.old)).memory }
    ensures at_after { at.new ≡ (reader_next reader.old chunk.now at.old (length out.old)).at }
    ensures out_after { out.new ≡ leaves (reader_next reader.old chunk.now at.old (length out.old)).outcome out.old }
{
    reader::next_telegram(reader, chunk, at, out)
}

// The end of the run: 11, then the reader's own refusals.
pub fn osp_reader_end(reader: &mut [u8]) -> u32
    ensures value { result ≡ returned (reader_end reader.old).outcome }
    ensures reader_after { reader.new ≡ (reader_end reader.old).memory }
{
    reader::end_capture(reader)
}

// The position; 0 where the other two give 11.
pub fn osp_reader_position(reader: &[u8]) -> u64
    ensures { result ≡ reader_position reader.now }
{
    reader::position_of(reader)
}
