// Commands by their numbers: the command of a number with the bytes of its payload, and a command laid out. Document 01, "Commands";
// document 02, request 02.
ghost use Rattle.std.specs.Prelude.{◌≡◌, true, length};
ghost use Rattle.table.specs.Table.{size_right};
ghost use Rattle.command.specs.Fields.{layout_of, fields_by};
ghost use Rattle.command.specs.Commands.{numbered, message_of, laid_out};

use crate::payload::{octets_parts, pwm_at, pwm_parts, word_parts};
use crate::{Command, Parts};

// The command of a number of the table, with the fields in its payload.
#[tactic(auto, unfolding(crate::specs::Fields::layout_of, table::specs::Table::row_of, table::specs::Table::plain_number, table::specs::Table::acknowledged))]
pub(crate) fn command_of(n: u8, p: &[u8]) -> Command
    requires { size_right n (length p.now) ≡ true }
    ensures { message_of result ≡ numbered n (fields_by (layout_of n) p.now) }
{
    match n {
        0x00 => Command::Reset,
        0x01 => Command::ClearError,
        0x02 => Command::InitBidir,
        0x03 => Command::InitLoop,
        0x04 => Command::GoSleep,
        0x05 => Command::GoActive,
        0x06 => Command::GoDeepSleep,
        0x07 => Command::Identify,
        0x0C => Command::ReadMult,
        0x0D => Command::SetMult(bits::word(p[0], p[1])),
        0x24 => Command::GoSleepSr,
        0x25 => Command::GoActiveSr,
        0x26 => Command::GoDeepSleepSr,
        0x2D => Command::SetMultSr(bits::word(p[0], p[1])),
        0x40 => Command::ReadStatus,
        0x42 => Command::ReadTempStatus,
        0x48 => Command::ReadTemp,
        0x4A => Command::ReadThresholds,
        0x4B => Command::SetThresholds(p[0], p[1], p[2]),
        0x4C => Command::ReadSetup,
        0x4D => Command::SetSetup(p[0]),
        0x4E => Command::ReadPwm,
        0x4F => Command::SetPwm(pwm_at(p, 0), pwm_at(p, 2), pwm_at(p, 4)),
        0x6B => Command::SetThresholdsSr(p[0], p[1], p[2]),
        0x6D => Command::SetSetupSr(p[0]),
        // 6F, the only one that is left
        _ => Command::SetPwmSr(pwm_at(p, 0), pwm_at(p, 2), pwm_at(p, 4)),
    }
}

// A command laid out.
#[tactic(auto, unfolding(crate::specs::Fields::layout_of, table::specs::Table::plain_number, table::specs::Table::acknowledged))]
pub fn command_parts(c: Command) -> Parts
    ensures { result ≡ laid_out (message_of c) }
{
    match c {
        Command::Reset => octets_parts(0x00, &[]),
        Command::ClearError => octets_parts(0x01, &[]),
        Command::InitBidir => octets_parts(0x02, &[]),
        Command::InitLoop => octets_parts(0x03, &[]),
        Command::GoSleep => octets_parts(0x04, &[]),
        Command::GoActive => octets_parts(0x05, &[]),
        Command::GoDeepSleep => octets_parts(0x06, &[]),
        Command::Identify => octets_parts(0x07, &[]),
        Command::ReadMult => octets_parts(0x0C, &[]),
        Command::SetMult(mask) => word_parts(0x0D, mask),
        Command::ReadStatus => octets_parts(0x40, &[]),
        Command::ReadTempStatus => octets_parts(0x42, &[]),
        Command::ReadTemp => octets_parts(0x48, &[]),
        Command::ReadThresholds => octets_parts(0x4A, &[]),
        Command::SetThresholds(x, y, z) => octets_parts(0x4B, &[x, y, z]),
        Command::ReadSetup => octets_parts(0x4C, &[]),
        Command::SetSetup(x) => octets_parts(0x4D, &[x]),
        Command::ReadPwm => octets_parts(0x4E, &[]),
        Command::SetPwm(r, g, b) => pwm_parts(0x4F, r, g, b),
        Command::GoSleepSr => octets_parts(0x24, &[]),
        Command::GoActiveSr => octets_parts(0x25, &[]),
        Command::GoDeepSleepSr => octets_parts(0x26, &[]),
        Command::SetMultSr(mask) => word_parts(0x2D, mask),
        Command::SetThresholdsSr(x, y, z) => octets_parts(0x6B, &[x, y, z]),
        Command::SetSetupSr(x) => octets_parts(0x6D, &[x]),
        Command::SetPwmSr(r, g, b) => pwm_parts(0x6F, r, g, b),
    }
}
