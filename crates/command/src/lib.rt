// Commands: document 01, "Commands".
#![tactic(auto)]

mod numbers;
mod payload;

ghost use Rattle.std.specs.Prelude.{◌≡◌, ℕ, ◌+◌, ◌≤◌, List, length, take};
ghost use Rattle.telegram.specs.Numbers.{outcome_of, counted, leaves};
ghost use Rattle.command.specs.Fields.{pwm_fields};
ghost use Rattle.command.specs.Commands.{numbered, message_of, dissection_as, composed_as, composing, naming, dissecting, ranged_address, building_command, heading_as};

use numbers::command_of;
pub use numbers::command_parts;
pub use payload::{octets_parts, pwm_from, pwm_of, pwm_parts, word_parts};
use table::Cast;
use telegram::{Address, Refusal, Telegram};

// A PWM word: the current mode (daytime or night, one bit) and the duty, up to 32,767.
#[derive(Clone, Copy)]
pub struct Pwm {
    pub day: bool,
    pub duty: u16,
}

// The commands of the table, with their fields. Those that end in Sr are acknowledged: sent with a status request, document 001's SR.
// Each number of the table has a case of its own, as the specification names them (`message_of`). Their fields stand one by one, as the
// definitions have them.
#[derive(Clone, Copy)]
pub enum Command {
    Reset,
    ClearError,
    InitBidir,
    InitLoop,
    GoSleep,
    GoActive,
    GoDeepSleep,
    Identify,
    ReadMult,
    SetMult(u16),
    ReadStatus,
    ReadTempStatus,
    ReadTemp,
    ReadThresholds,
    SetThresholds(u8, u8, u8),
    ReadSetup,
    SetSetup(u8),
    ReadPwm,
    SetPwm(Pwm, Pwm, Pwm),
    GoSleepSr,
    GoActiveSr,
    GoDeepSleepSr,
    SetMultSr(u16),
    SetThresholdsSr(u8, u8, u8),
    SetSetupSr(u8),
    SetPwmSr(Pwm, Pwm, Pwm),
}

// A dissected telegram.
#[derive(Clone, Copy)]
pub struct Dissected {
    pub cast: Cast,
    pub command: Command,
}

// A command or an answer laid out: its number, its payload in the first `size` bytes, and whether its duties are in range.
// Fixed memory: a library crate has no heap, so an array and how much of it counts; `payload` gives that part. `fit` is no Option of the
// whole, since the contract equates every field with `laid_out`.
#[derive(Clone, Copy)]
pub struct Parts {
    pub number: u8,
    pub bytes: [u8; 8],
    pub size: usize,
    pub fit: bool,
}

impl Parts {
    // The payload: of the 8 bytes the first `size`, all where it is larger.
    pub fn payload(&self) -> &[u8]
        ensures { result.now ≡ take self.now.size self.now.bytes }
    {
        &self.bytes[..self.size.min(8)]
    }
}

// The command of a number and the bytes of its payload. Refusals 6, then 8.
#[tactic(auto, unfolding(crate::specs::Commands::composing))]
pub fn compose(n: u8, payload: &[u8]) -> Result<Command, Refusal>
    ensures { composed_as result ≡ composing n payload.now }
{
    let row = table::row_of(n).ok_or(Refusal::UnknownCommand)?;
    if !table::payload_fits(row, payload.len()) {
        return Err(Refusal::PayloadSize);
    }
    Ok(command_of(n, payload))
}

// The cast that a telegram which was read names, for a command of the table. Refusals 6, 7, 8.
#[tactic(auto, unfolding(crate::specs::Commands::naming))]
pub fn heading_of(t: Telegram) -> Result<Cast, Refusal>
    ensures { (s : List ℕ) → heading_as s t result ≡ naming s t }
{
    let row = table::row_of(t.command).ok_or(Refusal::UnknownCommand)?;
    let cast = table::destination_of(t.address).ok_or(Refusal::CastNotAllowed)?;
    if !table::cast_listed(row.casts, cast) {
        return Err(Refusal::CastNotAllowed);
    }
    if !table::payload_fits(row, t.size) {
        return Err(Refusal::PayloadSize);
    }
    Ok(cast)
}

// What a telegram that was read names, with its fields. Refusals 6, 7, 8.
fn name_command(s: &[u8], t: Telegram) -> Result<Dissected, Refusal>
    requires { 3 + t.size ≤ length s.now }
    ensures { dissection_as result ≡ naming s.now t }
{
    let cast = heading_of(t)?;
    let command = command_of(t.command, &s[3..3 + t.size]);
    Ok(Dissected { cast, command })
}

// The command dissector. Refusals 1 to 8. (`let .. else` where `?` could stand: a form that document 01 names.)
#[tactic(auto, unfolding(crate::specs::Commands::dissecting))]
pub fn dissect(s: &[u8]) -> Result<Dissected, Refusal>
    ensures { dissection_as result ≡ dissecting s.now }
{
    let r = telegram::read_telegram(s);
    let Ok(t) = r else {
        return Err(telegram::refusal_of(r));
    };
    name_command(s, t)
}

// The address that a command is built for: its cast and its duties are in range. Refusal 10.
fn ranged_address(parts: &Parts, cast: Cast) -> Result<Address, Refusal>
    ensures { outcome_of result ≡ ranged_address parts.now cast }
{
    if !table::cast_in_range(cast) || !parts.fit {
        return Err(Refusal::OutOfRange);
    }
    Ok(Address(table::address_of(cast)))
}

// The command builder. Refusals 10, 7, 9.
pub fn build_command(command: Command, cast: Cast, out: &mut [u8]) -> Result<usize, Refusal>
    ensures result_value { outcome_of result ≡ counted (building_command (message_of command) cast (length out.old)) }
    ensures out_after { out.new ≡ leaves (building_command (message_of command) cast (length out.old)) out.old }
{
    let parts = command_parts(command);
    let address = ranged_address(&parts, cast)?;
    if !table::lists_cast(parts.number, cast) {
        return Err(Refusal::CastNotAllowed);
    }
    telegram::build_telegram(address, parts.number, parts.payload(), out)
}

// The command builder for SETPWM alone, which goes to every cast: the table is not looked up. docs/PROMISES.md names it. Refusals 10, 9.
pub fn build_pwm(r: Pwm, g: Pwm, b: Pwm, cast: Cast, out: &mut [u8]) -> Result<usize, Refusal>
    ensures result_value { outcome_of result ≡ counted (building_command (numbered 0x4F (pwm_fields r g b)) cast (length out.old)) }
    ensures out_after { out.new ≡ leaves (building_command (numbered 0x4F (pwm_fields r g b)) cast (length out.old)) out.old }
{
    let parts = pwm_parts(0x4F, r, g, b);
    let address = ranged_address(&parts, cast)?;
    telegram::build_telegram(address, 0x4F, parts.payload(), out)
}
