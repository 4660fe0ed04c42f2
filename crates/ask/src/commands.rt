// What `osp info` says of each command beside the table.

// What a command does, by its number; unknown where there is no such command.
pub(crate) fn description(number: u8) -> &'static str {
    match number {
        0x00 =>
            "forgets address, groups and PWM; setup and thresholds to their defaults; state UNINITIALIZED",
        0x01 => "clears the five flags",
        0x02 =>
            "numbers the lamps from the first address, state SLEEP, COM bidir; the last lamp answers",
        0x03 =>
            "numbers the lamps from the first address, state SLEEP, COM loop; the last lamp answers",
        0x04 => "state SLEEP",
        0x05 => "state ACTIVE",
        0x06 => "state DEEPSLEEP",
        0x07 => "answers the identity",
        0x0C => "answers the group word",
        0x0D => "stores the group word; bit g makes the lamp a member of group g",
        0x40 => "answers the status byte, then clears the flags",
        0x42 => "answers temperature and status byte, then clears the flags",
        0x48 => "answers the temperature",
        0x4A => "answers the three threshold bytes",
        0x4B => "stores the three threshold bytes",
        0x4C => "answers the setup byte",
        0x4D => "stores the setup byte",
        0x4E => "answers the three PWM words",
        0x4F => "stores the three PWM words, red, green and blue, each a mode and a duty",
        0x24 => "state SLEEP, then answers temperature and status byte, clearing no flag",
        0x25 => "state ACTIVE, then answers temperature and status byte, clearing no flag",
        0x26 => "state DEEPSLEEP, then answers temperature and status byte, clearing no flag",
        0x2D => "stores the group word, then answers temperature and status byte, clearing no flag",
        0x6B =>
            "stores the three threshold bytes, then answers temperature and status byte, clearing no flag",
        0x6D => "stores the setup byte, then answers temperature and status byte, clearing no flag",
        0x6F =>
            "stores the three PWM words, then answers temperature and status byte, clearing no flag",
        _ => "unknown",
    }
}

// The bytes of its payload by name, or where there is none those of its answer; nothing of a command that has neither.
pub(crate) fn byte_names(number: u8) -> &'static str {
    match number {
        0x02 | 0x03 | 0x24 | 0x25 | 0x26 | 0x42 => " (temp stat)",
        0x07 => " (id3 id2 id1 id0)",
        0x0C | 0x0D | 0x2D => " (mask1 mask0)",
        0x40 => " (stat)",
        0x48 => " (temp)",
        0x4A | 0x4B | 0x6B => " (cycle low high)",
        0x4C | 0x4D | 0x6D => " (setup)",
        0x4E | 0x4F | 0x6F => " (red1 red0 grn1 grn0 blu1 blu0)",
        _ => "",
    }
}
