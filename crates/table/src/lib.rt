// The table of commands, and addresses as casts: document 01, "Addresses and casts" and the table of "Commands".
#![tactic(auto)]

ghost use Rattle.std.specs.Prelude.{◌≡◌};
ghost use Rattle.telegram.specs.Numbers.{outcome_or};
ghost use Rattle.table.specs.Casts.{destination, address_of, cast_in_range};
ghost use Rattle.table.specs.Table.{row_of, acknowledged, plain_number, cast_listed, payload_fits, lists_cast};

use telegram::Address;

// The table's column of casts: all three; one lamp; a first address or everyone.
#[derive(Clone, Copy)]
pub enum Casts {
    All,
    Single,
    First,
}

// A row of the table: the casts, and how many bytes the payload and the answer have (0 where there is no answer, as the definitions have
// it).
#[derive(Clone, Copy)]
pub struct Row {
    pub casts: Casts,
    pub payload: usize,
    pub answer: usize,
}

// Document 01's cast, to whom a command goes: everyone (broadcast), one lamp (unicast) or a group. An init's first address
// is named as one lamp.
#[derive(Clone, Copy)]
pub enum Cast {
    Everyone,
    One(Address),
    Group(u8),
}

// The table's row for a command number; none for a number that it does not have. (Numbers, here and in the rules: so the definitions
// have them.)
#[tactic(auto, unfolding(crate::specs::Table::row_of))]
pub fn row_of(command: u8) -> Option<Row>
    ensures { outcome_or 6 result ≡ row_of command }
{
    let (casts, payload, answer) = match command {
        0x00..=0x01 => (Casts::All, 0, 0),
        0x02..=0x03 => (Casts::First, 0, 2),
        0x04..=0x06 => (Casts::All, 0, 0),
        0x07 => (Casts::Single, 0, 4),
        0x0C => (Casts::Single, 0, 2),
        0x0D => (Casts::All, 2, 0),
        0x24..=0x26 => (Casts::Single, 0, 2),
        0x2D => (Casts::Single, 2, 2),
        0x40 => (Casts::Single, 0, 1),
        0x42 => (Casts::Single, 0, 2),
        0x48 => (Casts::Single, 0, 1),
        0x4A => (Casts::Single, 0, 3),
        0x4B => (Casts::All, 3, 0),
        0x4C => (Casts::Single, 0, 1),
        0x4D => (Casts::All, 1, 0),
        0x4E => (Casts::Single, 0, 6),
        0x4F => (Casts::All, 6, 0),
        0x6B => (Casts::Single, 3, 2),
        0x6D => (Casts::Single, 1, 2),
        0x6F => (Casts::Single, 6, 2),
        _ => return None,
    };
    Some(Row {
        casts,
        payload,
        answer,
    })
}

// Whether a number is an acknowledged command's.
#[tactic(auto, unfolding(crate::specs::Table::acknowledged))]
pub fn is_acknowledged(n: u8) -> bool
    ensures { result ≡ acknowledged n }
{
    matches!(n, 0x24..=0x26 | 0x2D | 0x6B | 0x6D | 0x6F)
}

// The number of a command's plain form.
#[tactic(auto, unfolding(crate::specs::Table::plain_number, crate::specs::Table::acknowledged))]
pub fn plain_number(n: u8) -> u8
    ensures { result ≡ plain_number n }
{
    if is_acknowledged(n) {
        return n - 0x20;
    }
    n
}

// Whether the table's column lists a cast. Each column has its arm: `matches!` would be no plainer.
pub fn cast_listed(casts: Casts, cast: Cast) -> bool
    ensures { result ≡ cast_listed casts cast }
{
    match casts {
        Casts::All => true,
        Casts::Single => matches!(cast, Cast::One(_)),
        Casts::First => matches!(cast, Cast::Everyone | Cast::One(_)),
    }
}

// Whether the table lists a cast for a command number.
pub fn lists_cast(n: u8, cast: Cast) -> bool
    ensures { result ≡ lists_cast (row_of n) cast }
{
    let Some(row) = row_of(n) else {
        return false;
    };
    cast_listed(row.casts, cast)
}

// Whether a payload of `size` bytes is right for the command of a row.
pub fn payload_fits(row: Row, size: usize) -> bool
    ensures { result ≡ payload_fits row size }
{
    size == row.payload
}

// What an address stands for as a destination; none for one that is never a destination.
#[tactic(auto, unfolding(crate::specs::Casts::destination))]
pub fn destination_of(address: Address) -> Option<Cast>
    ensures { outcome_or 7 result ≡ destination address.0 }
{
    let a = address.0;
    match a {
        0 => Some(Cast::Everyone),
        0x001..=0x3EF => Some(Cast::One(address)),
        0x3F0..=0x3FE => Some(Cast::Group((a - 0x3F0) as u8)),
        _ => None,
    }
}

// The address that a cast is sent to.
pub fn address_of(cast: Cast) -> u16
    ensures { result ≡ address_of cast }
{
    match cast {
        Cast::Everyone => 0,
        Cast::One(a) => a.0,
        Cast::Group(g) => 0x3F0 + g as u16,
    }
}

// Whether a single-lamp or first address is 001 to 3EF, and a group at most 14. Each cast has its arm: `matches!` would be no plainer.
pub fn cast_in_range(cast: Cast) -> bool
    ensures { result ≡ cast_in_range cast }
{
    match cast {
        Cast::Everyone => true,
        Cast::One(a) => 1 <= a.0 && a.0 <= 0x3EF,
        Cast::Group(g) => g <= 14,
    }
}
