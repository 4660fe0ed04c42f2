// A telegram that was accepted, as the lamps are given it, and the room for their answer.
ghost use Rattle.std.specs.Prelude.{◌≡◌, true, ◌≤◌, length};
ghost use Rattle.table.specs.Table.{size_right};
ghost use Rattle.table.specs.Casts.{cast_in_range};

use table::Cast;

// How long the room for an answer has to be.
pub(crate) const ANSWER: usize = 12;

// A command of the table: its number, its payload, as long as the table has it for that number, and whom it is for. A command is its number
// here, as in the definitions of the rules.
#[derive(Clone, Copy)]
pub(crate) struct Order<'a> {
    pub number: u8,
    pub payload: &'a [u8],
    pub cast: Cast,
    ghost sendable: { number ≤ 127 },
    ghost fits: { size_right number (length payload.now) ≡ true },
    ghost reachable: { cast_in_range cast ≡ true },
}
