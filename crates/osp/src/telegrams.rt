// The functions on single telegrams: checksum, reader, dissectors, builders. A refusal is its number, as C has it.
ghost use Rattle.std.specs.Prelude.{◌≡◌, ◌%◌, ◌≤◌, length};
ghost use Rattle.checksum.specs.Checksum.{checksum_of};
ghost use Rattle.telegram.specs.Numbers.{leaves};
ghost use Rattle.telegram.specs.Telegram.{building};
ghost use Rattle.command.specs.Fields.{mode_of};
ghost use Rattle.command.specs.Commands.{message_of};
ghost use Rattle.reader.specs.Interface.{returned};
ghost use Rattle.osp.specs.Interface.{osp_read, osp_dissect, osp_dissect_answer, building_directed, osp_build_command, osp_build_pwm};

use crate::casts::cast_from;
use crate::given::{give_answer, give_command, give_telegram};
use crate::returned::{built_returned, refusal_returned};
use command::{Command, Pwm};
use telegram::Address;

// The checksum of the bytes of `s`.
pub fn osp_checksum(s: &[u8]) -> u8
    ensures { result ≡ checksum_of s.now }
{
    checksum::checksum(s)
}

// The telegram reader: 1 to 5, then 9.
#[tactic(auto, unfolding(crate::specs::Interface::osp_read))]
pub fn osp_read(s: &[u8], out: &mut [u8]) -> u32
    ensures value { result ≡ returned (osp_read s.now (length out.old)) }
    ensures out_after { out.new ≡ leaves (osp_read s.now (length out.old)) out.old }
{
    let r = telegram::read_telegram(s);
    let Ok(t) = r else {
        return refusal_returned(telegram::refusal_of(r));
    };
    give_telegram(s, t, out)
}

// The command dissector: 1 to 8, then 9.
#[tactic(auto, unfolding(crate::specs::Interface::osp_dissect))]
pub fn osp_dissect(s: &[u8], out: &mut [u8]) -> u32
    ensures value { result ≡ returned (osp_dissect s.now (length out.old)) }
    ensures out_after { out.new ≡ leaves (osp_dissect s.now (length out.old)) out.old }
{
    match command::dissect(s) {
        Ok(d) => give_command(d, out),
        Err(e) => refusal_returned(e),
    }
}

// The answer dissector: 1 to 8, then 9.
#[tactic(auto, unfolding(crate::specs::Interface::osp_dissect_answer))]
pub fn osp_dissect_answer(s: &[u8], out: &mut [u8]) -> u32
    ensures value { result ≡ returned (osp_dissect_answer s.now (length out.old)) }
    ensures out_after { out.new ≡ leaves (osp_dissect_answer s.now (length out.old)) out.old }
{
    match answer::dissect_answer(s) {
        Ok(a) => give_answer(a, out),
        Err(e) => refusal_returned(e),
    }
}

// The raw builder: 10, then 9.
#[tactic(auto, unfolding(telegram::specs::Telegram::building))]
pub fn osp_build(address: u32, command: u32, payload: &[u8], out: &mut [u8]) -> u32
    ensures value { result ≡ returned (building address command payload.now (length out.old)) }
    ensures out_after { out.new ≡ leaves (building address command payload.now (length out.old)) out.old }
{
    if 1023 < address || 127 < command {
        return 10;
    }
    built_returned(telegram::build_telegram(Address(address as u16), command as u8, payload, out))
}

// Builds a command for a cast in two numbers: 10, 7, 9.
#[tactic(auto, unfolding(crate::specs::Interface::building_directed))]
fn build_directed(c: Command, kind: u32, value: u32, out: &mut [u8]) -> u32
    ensures value { result ≡ returned (building_directed (message_of c) kind value (length out.old)) }
    ensures out_after { out.new ≡ leaves (building_directed (message_of c) kind value (length out.old)) out.old }
{
    let Some(cast) = cast_from(kind, value) else {
        return 10;
    };
    built_returned(command::build_command(c, cast, out))
}

// The command builder, of a command's number, its cast in two numbers and the bytes of its payload: 6, 8, then 10, 7, 9.
#[tactic(auto, unfolding(crate::specs::Interface::osp_build_command))]
pub fn osp_build_command(command: u32, cast: u32, value: u32, payload: &[u8], out: &mut [u8]) -> u32
    ensures value { result ≡ returned (osp_build_command command cast value payload.now (length out.old)) }
    ensures out_after { out.new ≡ leaves (osp_build_command command cast value payload.now (length out.old)) out.old }
{
    if 127 < command {
        return 6;
    }
    match command::compose(command as u8, payload) {
        Ok(c) => build_directed(c, cast, value, out),
        Err(e) => refusal_returned(e),
    }
}

// A PWM word from its mode, 0 or 1, and a duty in range.
fn pwm_of_mode(mode: u32, duty: u32) -> Pwm
    requires { duty ≤ 32767 }
    ensures { (mode_of result ≡ mode % 2) × (result.duty ≡ duty) }
{
    Pwm {
        day: mode % 2 == 1,
        duty: duty as u16,
    }
}

// SETPWM from its fields, `modes` a sum of 4 for red, 2 for green and 1 for blue in daytime mode: 10, then 9.
#[tactic(auto, unfolding(crate::specs::Interface::osp_build_pwm))]
pub fn osp_build_pwm(
    cast: u32,
    value: u32,
    modes: u32,
    red: u32,
    green: u32,
    blue: u32,
    out: &mut [u8],
) -> u32
    ensures value { result ≡ returned (osp_build_pwm cast value modes red green blue (length out.old)) }
    ensures out_after { out.new ≡ leaves (osp_build_pwm cast value modes red green blue (length out.old)) out.old }
{
    if 7 < modes || 32767 < red || 32767 < green || 32767 < blue {
        return 10;
    }
    let r = pwm_of_mode(modes / 4, red);
    let g = pwm_of_mode(modes / 2, green);
    let b = pwm_of_mode(modes, blue);
    let Some(cast) = cast_from(cast, value) else {
        return 10;
    };
    built_returned(command::build_pwm(r, g, b, cast, out))
}
