// A cast in two numbers, its kind and its value, there and back: so the C interface has it.
ghost use Rattle.std.specs.Prelude.{◌≡◌};
ghost use Rattle.telegram.specs.Numbers.{outcome_or};
ghost use Rattle.table.specs.Casts.{cast_kind, cast_value};
ghost use Rattle.osp.specs.Interface.{directing};

use table::Cast;
use telegram::Address;

// The kind of a cast.
pub(crate) fn kind_of(cast: Cast) -> u8
    ensures { result ≡ cast_kind cast }
{
    match cast {
        Cast::Everyone => 0,
        Cast::One(_) => 1,
        Cast::Group(_) => 2,
    }
}

// The value of a cast, an address or a group.
pub(crate) fn value_of(cast: Cast) -> u16
    ensures { result ≡ cast_value cast }
{
    match cast {
        Cast::Everyone => 0,
        Cast::One(a) => a.0,
        Cast::Group(g) => g as u16,
    }
}

// A cast from its two numbers.
#[tactic(auto, unfolding(crate::specs::Interface::directing))]
pub(crate) fn cast_from(kind: u32, value: u32) -> Option<Cast>
    ensures { outcome_or 10 result ≡ directing kind value }
{
    match (kind, value) {
        (0, 0) => Some(Cast::Everyone),
        (1, 0x001..=0x3EF) => Some(Cast::One(Address(value as u16))),
        (2, 0..=14) => Some(Cast::Group(value as u8)),
        _ => None,
    }
}
