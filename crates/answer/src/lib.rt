// Answers: document 01, "Commands", on answers.
#![tactic(auto)]

ghost use Rattle.std.specs.Prelude.{◌≡◌, ◌+◌, ◌*◌, ◌≤◌, ◌<◌, true, length};
ghost use Rattle.telegram.specs.Numbers.{done};
ghost use Rattle.table.specs.Table.{answer_size_of, acknowledged};
ghost use Rattle.command.specs.Fields.{fields_by};
ghost use Rattle.command.specs.Commands.{numbered};
ghost use Rattle.answer.specs.Answers.{answer_layout_of, acknowledged_number, answer_message_of, answer_address, answer_laid_out, reply_as, naming_answer, dissecting_answer};

use command::{Parts, Pwm, octets_parts};
use telegram::{Address, Refusal, Telegram};

// The acknowledged commands, whose answers are alike.
#[derive(Clone, Copy)]
pub enum Acknowledged {
    GoSleep,
    GoActive,
    GoDeepSleep,
    SetMult,
    SetThresholds,
    SetSetup,
    SetPwm,
}

// The answers to the commands that have one, with their values, one by one as the definitions have them.
#[derive(Clone, Copy)]
pub enum Answer {
    InitBidir(u8, u8),
    InitLoop(u8, u8),
    Identity(u32),
    Mask(u16),
    Status(u8),
    TempStatus(u8, u8),
    Temp(u8),
    Thresholds(u8, u8, u8),
    Setup(u8),
    Words(Pwm, Pwm, Pwm),
    Acknowledgement(Acknowledged, u8, u8),
}

// A dissected answer, with the address of the lamp that gave it.
#[derive(Clone, Copy)]
pub struct Answered {
    pub address: Address,
    pub answer: Answer,
}

// The acknowledged command of a number that is one. No TryFrom, since its caller knows that: the error could not come.
#[tactic(auto, unfolding(table::specs::Table::acknowledged))]
fn acknowledged_of(n: u8) -> Acknowledged
    requires { acknowledged n ≡ true }
    ensures { acknowledged_number result ≡ n }
{
    match n {
        0x24 => Acknowledged::GoSleep,
        0x25 => Acknowledged::GoActive,
        0x26 => Acknowledged::GoDeepSleep,
        0x2D => Acknowledged::SetMult,
        0x6B => Acknowledged::SetThresholds,
        0x6D => Acknowledged::SetSetup,
        // 6F, the only one that is left
        _ => Acknowledged::SetPwm,
    }
}

// An acknowledged command as its number.
impl From<Acknowledged> for u8 {
    ghost from_gives = { λ c n. n ≡ acknowledged_number c };

    fn from(c: Acknowledged) -> u8 {
        match c {
            Acknowledged::GoSleep => 0x24,
            Acknowledged::GoActive => 0x25,
            Acknowledged::GoDeepSleep => 0x26,
            Acknowledged::SetMult => 0x2D,
            Acknowledged::SetThresholds => 0x6B,
            Acknowledged::SetSetup => 0x6D,
            Acknowledged::SetPwm => 0x6F,
        }
    }
}

// The answer of a number that has answers, with the values in its bytes.
#[tactic(auto, unfolding(crate::specs::Answers::answer_layout_of, table::specs::Table::row_of, table::specs::Table::acknowledged))]
fn answer_of(n: u8, p: &[u8]) -> Answer
    requires { (answer_size_of n ≡ done (length p.now)) × (0 < length p.now) }
    ensures { answer_message_of result ≡ numbered n (fields_by (answer_layout_of n) p.now) }
{
    match n {
        0x02 => Answer::InitBidir(p[0], p[1]),
        0x03 => Answer::InitLoop(p[0], p[1]),
        0x07 => Answer::Identity(u32::from_be_bytes([p[0], p[1], p[2], p[3]])),
        0x0C => Answer::Mask(bits::word(p[0], p[1])),
        0x40 => Answer::Status(p[0]),
        0x42 => Answer::TempStatus(p[0], p[1]),
        0x48 => Answer::Temp(p[0]),
        0x4A => Answer::Thresholds(p[0], p[1], p[2]),
        0x4C => Answer::Setup(p[0]),
        0x4E => Answer::Words(
            command::pwm_from(p[0], p[1]),
            command::pwm_from(p[2], p[3]),
            command::pwm_from(p[4], p[5]),
        ),
        // the numbers with answers that are left
        _ => Answer::Acknowledgement(acknowledged_of(n), p[0], p[1]),
    }
}

// Whether an answer to a number may come from an address: 001 to 3EF, for 02 and 03, the inits, also 000. (The rules that name them lie
// above this crate.)
fn answer_address(n: u8, a: u16) -> bool
    ensures { result ≡ answer_address n a }
{
    if a == 0 {
        return n == 0x02 || n == 0x03;
    }
    a <= 0x3EF
}

// What a telegram that was read is as an answer. Refusals 6, 7, 8.
#[tactic(auto, unfolding(crate::specs::Answers::naming_answer))]
fn name_answer(s: &[u8], t: Telegram) -> Result<Answered, Refusal>
    requires { 3 + t.size ≤ length s.now }
    ensures { reply_as result ≡ naming_answer s.now t }
{
    let row = table::row_of(t.command).ok_or(Refusal::UnknownCommand)?;
    if row.answer == 0 {
        return Err(Refusal::UnknownCommand);
    }
    if !answer_address(t.command, t.address.0) {
        return Err(Refusal::CastNotAllowed);
    }
    if t.size != row.answer {
        return Err(Refusal::PayloadSize);
    }
    Ok(Answered {
        address: t.address,
        answer: answer_of(t.command, &s[3..3 + t.size]),
    })
}

// The answer dissector. Refusals 1 to 8. (`let .. else` where `?` could stand: a form that document 01 names.)
#[tactic(auto, unfolding(crate::specs::Answers::dissecting_answer))]
pub fn dissect_answer(s: &[u8]) -> Result<Answered, Refusal>
    ensures { reply_as result ≡ dissecting_answer s.now }
{
    let r = telegram::read_telegram(s);
    let Ok(t) = r else {
        return Err(telegram::refusal_of(r));
    };
    name_answer(s, t)
}

// An answer laid out, for the raw builder.
#[tactic(auto, unfolding(crate::specs::Answers::answer_layout_of))]
pub fn answer_parts(a: Answer) -> Parts
    ensures { result ≡ answer_laid_out (answer_message_of a) }
{
    match a {
        Answer::InitBidir(temperature, status) => octets_parts(0x02, &[temperature, status]),
        Answer::InitLoop(temperature, status) => octets_parts(0x03, &[temperature, status]),
        Answer::Identity(identity) => octets_parts(0x07, &identity.to_be_bytes()),
        Answer::Mask(mask) => command::word_parts(0x0C, mask),
        Answer::Status(status) => octets_parts(0x40, &[status]),
        Answer::TempStatus(temperature, status) => octets_parts(0x42, &[temperature, status]),
        Answer::Temp(temperature) => octets_parts(0x48, &[temperature]),
        Answer::Thresholds(x, y, z) => octets_parts(0x4A, &[x, y, z]),
        Answer::Setup(x) => octets_parts(0x4C, &[x]),
        Answer::Words(r, g, b) => command::pwm_parts(0x4E, r, g, b),
        Answer::Acknowledgement(c, temperature, status) => {
            octets_parts(u8::from(c), &[temperature, status])
        }
    }
}
