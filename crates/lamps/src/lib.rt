// A lamp for people and for machines: a row of a table, an object, or a disc of a picture. docs/TOOL.md has the forms.
#![tactic(auto)]

mod board;
mod records;

use rules::Lamp;
use text::Page;

// How a chain is shown. (A value that a subcommand or an option gives, and matched on where the forms differ: a trait with an impl for each
// form would be no plainer.)
#[derive(Clone, Copy)]
pub enum Look {
    Table,
    Objects,
    Picture,
}

// The status byte of a lamp. (`lamp` has it as a private function: a public one would need a contract there for this one line.)
pub(crate) fn status_of(l: Lamp) -> u8 {
    lamp::status_byte(l.state, l.direction, l.flags)
}

// Appends what is shown of the lamp at a place of a chain of so many lamps.
pub fn put_lamp(page: &mut Page, look: Look, place: u16, lamps: u16, l: Lamp) {
    match look {
        Look::Table => records::put_row(page, place, l),
        Look::Objects => records::put_object(page, place, l),
        Look::Picture => board::put_lamp(page, place, lamps, l),
    }
}

// Appends what stands before the lamps.
pub fn put_start(page: &mut Page, look: Look, lamps: u16) {
    match look {
        Look::Table => page.put(
            b"place addr state         com   temp thresholds setup red         green       blue        flags               groups\n",
        ),
        Look::Objects => {}
        Look::Picture => board::put_start(page, lamps),
    }
}

// Appends what stands behind them.
pub fn put_end(page: &mut Page, look: Look, lamps: u16) {
    match look {
        Look::Table | Look::Objects => {}
        Look::Picture => board::put_end(page, lamps),
    }
}
