// The C interface: one exported function for each function of the crate `osp` that C calls, under its name and with its clauses.
// include/osp.h has their declarations. (Each has to stand here once more: an export cannot be generic, and a crate that other crates use
// is no static library.)
#![tactic(auto)]

ghost use Rattle.std.specs.Prelude.{◌≡◌, length};
ghost use Rattle.checksum.specs.Checksum.{checksum_of};
ghost use Rattle.telegram.specs.Numbers.{leaves};
ghost use Rattle.telegram.specs.Telegram.{building};
ghost use Rattle.chain.specs.Memory.{delivered, held, made, sensed_in};
ghost use Rattle.reader.specs.Interface.{returned, reader_next, reader_end, reader_position};
ghost use Rattle.osp.specs.Interface.{osp_read, osp_dissect, osp_dissect_answer, osp_build_command, osp_build_pwm, osp_record_len, defaults_from, returned_bare, osp_lamp};

// The checksum of the bytes of `s`.
#[unsafe(no_mangle)]
pub extern "C" fn osp_checksum(s: &[u8]) -> u8
    ensures { result ≡ checksum_of s.now }
{
    osp::osp_checksum(s)
}

// The telegram reader: 1 to 5, then 9.
#[unsafe(no_mangle)]
pub extern "C" fn osp_read(s: &[u8], out: &mut [u8]) -> u32
    ensures value { result ≡ returned (osp_read s.now (length out.old)) }
    ensures out_after { out.new ≡ leaves (osp_read s.now (length out.old)) out.old }
{
    osp::osp_read(s, out)
}

// The command dissector: 1 to 8, then 9.
#[unsafe(no_mangle)]
pub extern "C" fn osp_dissect(s: &[u8], out: &mut [u8]) -> u32
    ensures value { result ≡ returned (osp_dissect s.now (length out.old)) }
    ensures out_after { out.new ≡ leaves (osp_dissect s.now (length out.old)) out.old }
{
    osp::osp_dissect(s, out)
}

// The answer dissector: 1 to 8, then 9.
#[unsafe(no_mangle)]
pub extern "C" fn osp_dissect_answer(s: &[u8], out: &mut [u8]) -> u32
    ensures value { result ≡ returned (osp_dissect_answer s.now (length out.old)) }
    ensures out_after { out.new ≡ leaves (osp_dissect_answer s.now (length out.old)) out.old }
{
    osp::osp_dissect_answer(s, out)
}

// The raw builder: 10, then 9.
#[unsafe(no_mangle)]
pub extern "C" fn osp_build(address: u32, command: u32, payload: &[u8], out: &mut [u8]) -> u32
    ensures value { result ≡ returned (building address command payload.now (length out.old)) }
    ensures out_after { out.new ≡ leaves (building address command payload.now (length out.old)) out.old }
{
    osp::osp_build(address, command, payload, out)
}

// The command builder, of a command's number, its cast in two numbers and the bytes of its payload: 6, 8, then 10, 7, 9.
#[unsafe(no_mangle)]
pub extern "C" fn osp_build_command(
    command: u32,
    cast: u32,
    value: u32,
    payload: &[u8],
    out: &mut [u8],
) -> u32
    ensures value { result ≡ returned (osp_build_command command cast value payload.now (length out.old)) }
    ensures out_after { out.new ≡ leaves (osp_build_command command cast value payload.now (length out.old)) out.old }
{
    osp::osp_build_command(command, cast, value, payload, out)
}

// SETPWM from its fields, `modes` a sum of 4 for red, 2 for green and 1 for blue in daytime mode: 10, then 9.
#[unsafe(no_mangle)]
pub extern "C" fn osp_build_pwm(
    cast: u32,
    value: u32,
    modes: u32,
    red: u32,
    green: u32,
    blue: u32,
    out: &mut [u8],
) -> u32
    ensures value { result ≡ returned (osp_build_pwm cast value modes red green blue (length out.old)) }
    ensures out_after { out.new ≡ leaves (osp_build_pwm cast value modes red green blue (length out.old)) out.old }
{
    osp::osp_build_pwm(cast, value, modes, red, green, blue, out)
}

// The length of the record of a chain.
#[unsafe(no_mangle)]
pub extern "C" fn osp_record_len(count: u32) -> u32
    ensures { result ≡ osp_record_len count }
{
    osp::osp_record_len(count)
}

// Makes a chain: 11, then 9.
#[unsafe(no_mangle)]
pub extern "C" fn osp_make(mem: &mut [u8], count: u32, setup: u8, t0: u8, t1: u8, t2: u8) -> u32
    ensures value { result ≡ returned_bare (made mem.old count (defaults_from setup t0 t1 t2)) }
    ensures mem_after { mem.new ≡ held mem.old (made mem.old count (defaults_from setup t0 t1 t2)) }
{
    osp::osp_make(mem, count, setup, t0, t1, t2)
}

// Delivers a telegram: 9, 11, 1 to 8, 12.
#[unsafe(no_mangle)]
pub extern "C" fn osp_deliver(mem: &mut [u8], s: &[u8], out: &mut [u8]) -> u32
    ensures value { result ≡ returned (delivered mem.old s.now (length out.old)).outcome }
    ensures mem_after { mem.new ≡ (delivered mem.old s.now (length out.old)).memory }
    ensures out_after { out.new ≡ leaves (delivered mem.old s.now (length out.old)).outcome out.old }
{
    osp::osp_deliver(mem, s, out)
}

// A sensor report: 11, 13, 10.
#[unsafe(no_mangle)]
pub extern "C" fn osp_sense(mem: &mut [u8], place: u32, temperature: u8, faults: u32) -> u32
    ensures value { result ≡ returned_bare (sensed_in mem.old place temperature faults) }
    ensures mem_after { mem.new ≡ held mem.old (sensed_in mem.old place temperature faults) }
{
    osp::osp_sense(mem, place, temperature, faults)
}

// Reads a lamp out: 11, 13, then 9.
#[unsafe(no_mangle)]
pub extern "C" fn osp_lamp(mem: &[u8], place: u32, out: &mut [u8]) -> u32
    ensures value { result ≡ returned (osp_lamp mem.now place (length out.old)) }
    ensures out_after { out.new ≡ leaves (osp_lamp mem.now place (length out.old)) out.old }
{
    osp::osp_lamp(mem, place, out)
}

// The next telegram of a chunk: 11, the reader's own refusals, then 9.
#[unsafe(no_mangle)]
pub extern "C" fn osp_reader_next(
    reader: &mut [u8],
    chunk: &[u8],
    at: &mut usize,
    out: &mut [u8],
) -> u32
    ensures value { result ≡ returned (reader_next reader.old chunk.now at.old (length out.old)).outcome }
    ensures reader_after { reader.new ≡ (reader_next reader.old chunk.now at.old (length out.old)).memory }
    ensures at_after { at.new ≡ (reader_next reader.old chunk.now at.old (length out.old)).at }
    ensures out_after { out.new ≡ leaves (reader_next reader.old chunk.now at.old (length out.old)).outcome out.old }
{
    osp::osp_reader_next(reader, chunk, at, out)
}

// The end of the run: 11, then the reader's own refusals.
#[unsafe(no_mangle)]
pub extern "C" fn osp_reader_end(reader: &mut [u8]) -> u32
    ensures value { result ≡ returned (reader_end reader.old).outcome }
    ensures reader_after { reader.new ≡ (reader_end reader.old).memory }
{
    osp::osp_reader_end(reader)
}

// The position; 0 where the other two give 11.
#[unsafe(no_mangle)]
pub extern "C" fn osp_reader_position(reader: &[u8]) -> u64
    ensures { result ≡ reader_position reader.now }
{
    osp::osp_reader_position(reader)
}
