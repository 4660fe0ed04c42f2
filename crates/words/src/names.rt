// The names of things, by their numbers.

// The name of a command, with _sr where a status is requested, if there is such a command.
fn known_name(number: u8) -> Option<&'static str> {
    let name = match number {
        0x00 => "reset",
        0x01 => "clrerror",
        0x02 => "initbidir",
        0x03 => "initloop",
        0x04 => "gosleep",
        0x05 => "goactive",
        0x06 => "godeepsleep",
        0x07 => "identify",
        0x0C => "readmult",
        0x0D => "setmult",
        0x24 => "gosleep_sr",
        0x25 => "goactive_sr",
        0x26 => "godeepsleep_sr",
        0x2D => "setmult_sr",
        0x40 => "readstatus",
        0x42 => "readtempst",
        0x48 => "readtemp",
        0x4A => "readotth",
        0x4B => "setotth",
        0x4C => "readsetup",
        0x4D => "setsetup",
        0x4E => "readpwm",
        0x4F => "setpwm",
        0x6B => "setotth_sr",
        0x6D => "setsetup_sr",
        0x6F => "setpwm_sr",
        _ => return None,
    };
    Some(name)
}

// The name of a command; unknown where there is no such command.
pub fn command_name(number: u8) -> &'static str {
    known_name(number).unwrap_or("unknown")
}

// The command that a word is the name of.
pub fn command_named(word: &[u8]) -> Option<u8> {
    (0..0x80).find(|n| known_name(*n).is_some_and(|name| name.as_bytes() == word))
}

// The name of the state in a status byte. (No `State`: an answer holds the byte alone, and of a lamp `lamps` makes the byte anyway, for its
// flags.)
pub fn state_name(status: u8) -> &'static str {
    match status / 64 {
        0 => "UNINITIALIZED",
        1 => "SLEEP",
        2 => "ACTIVE",
        _ => "DEEPSLEEP",
    }
}

// The name of the direction in a status byte, its bit COM.
pub fn direction_name(status: u8) -> &'static str {
    if status / 16 % 2 == 0 {
        "bidir"
    } else {
        "loop"
    }
}

// The name of the mode of a PWM word.
pub fn mode_name(day: bool) -> &'static str {
    if day { "day" } else { "night" }
}
