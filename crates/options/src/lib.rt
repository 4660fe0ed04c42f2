// The options of replay, board and dump: the words behind the subcommand's name, with a byte 0 behind each.
#![tactic(auto)]

use complaint::{Subcommand, WrongOption};
use rules::{Defaults, Thresholds};
use text::reading::{byte_of, decimal_of};

// What is said to dump: the file, and what is printed of it.
#[derive(Clone, Copy)]
pub struct Options<'a> {
    pub file: &'a [u8],
    pub quiet: bool,
    pub json: bool,
}

// What is said to replay and board: the same, whether the file is a raw capture, and the chain on which it is done.
#[derive(Clone, Copy)]
pub struct ChainOptions<'a> {
    pub options: Options<'a>,
    pub raw: bool,
    pub lamps: u32,
    pub defaults: Defaults,
}

// The words that are left, and what those before them said.
#[derive(Clone, Copy)]
struct Reading<'a> {
    subcommand: Subcommand,
    rest: &'a [u8],
    file: Option<&'a [u8]>,
    lamps: Option<u32>,
    defaults: Defaults,
    raw: bool,
    quiet: bool,
    json: bool,
}

// The setup and the thresholds of the paper.
const PAPER: Defaults = Defaults {
    setup: 0x13,
    thresholds: Thresholds {
        cycle: 0x03,
        low: 0xE6,
        high: 0xF0,
    },
};

impl<'a> Reading<'a> {
    // Before the first word.
    fn of(rest: &'a [u8], subcommand: Subcommand) -> Reading<'a> {
        Reading {
            subcommand,
            rest,
            file: None,
            lamps: None,
            defaults: PAPER,
            raw: false,
            quiet: false,
            json: false,
        }
    }

    // Takes the next word, if one is left.
    fn next_word(&mut self) -> Option<&'a [u8]> {
        if self.rest.is_empty() {
            return None;
        }
        let end = text::find(self.rest, 0, self.rest.len(), 0);
        let word = text::first(self.rest, end);
        self.rest = text::from(self.rest, end.wrapping_add(1));
        Some(word)
    }

    // Takes the number that is an option's value.
    fn next_number(&mut self) -> Option<u32> {
        decimal_of(self.next_word()?)
    }

    // Takes a byte of an option's value.
    fn next_byte(&mut self) -> Option<u8> {
        byte_of(self.next_word()?)
    }

    // Takes the three bytes that are an option's value.
    fn next_thresholds(&mut self) -> Option<Thresholds> {
        Some(Thresholds {
            cycle: self.next_byte()?,
            low: self.next_byte()?,
            high: self.next_byte()?,
        })
    }

    // Takes an option, and its value behind it. Board takes the first four, dump the last two.
    fn take_option(&mut self, word: &[u8]) -> Result<(), WrongOption> {
        let board = self.subcommand == Subcommand::Board;
        let dump = self.subcommand == Subcommand::Dump;
        match word {
            b"--lamps" if !dump => {
                self.lamps = Some(self.next_number().ok_or(WrongOption::LampsExpected)?);
            }
            b"--setup" if !dump => {
                self.defaults.setup = self.next_byte().ok_or(WrongOption::SetupExpected)?;
            }
            b"--thresholds" if !dump => {
                let thresholds = self.next_thresholds();
                self.defaults.thresholds = thresholds.ok_or(WrongOption::ThresholdsExpected)?;
            }
            b"--raw" if !dump => self.raw = true,
            b"--quiet" if !board => self.quiet = true,
            b"--json" if !board => self.json = true,
            _ => return Err(WrongOption::OptionExpected),
        }
        Ok(())
    }

    // Takes an option, which has two hyphens in front, or the file.
    fn take(&mut self, word: &'a [u8]) -> Result<(), WrongOption> {
        if word.starts_with(b"--") {
            return self.take_option(word);
        }
        if self.file.is_some() {
            return Err(WrongOption::OneFile);
        }
        self.file = Some(word);
        Ok(())
    }

    // Takes all words: at most as many as there are bytes, since each has a byte behind it.
    fn take_all(&mut self) -> Result<(), WrongOption> {
        for _ in 0..self.rest.len() {
            let Some(word) = self.next_word() else {
                return Ok(());
            };
            self.take(word)?;
        }
        Ok(())
    }

    // What is said to dump, and to the others too; a file is always named.
    fn options(&self) -> Result<Options<'a>, WrongOption> {
        Ok(Options {
            file: self.file.ok_or(WrongOption::FileExpected)?,
            quiet: self.quiet,
            json: self.json,
        })
    }
}

// What words that are separated by a byte 0 say to dump, or what is wrong with them.
pub fn dump_options(line: &[u8]) -> Result<Options<'_>, WrongOption> {
    let mut reading = Reading::of(line, Subcommand::Dump);
    reading.take_all()?;
    reading.options()
}

// What they say to replay or board.
pub fn chain_options(line: &[u8], subcommand: Subcommand) -> Result<ChainOptions<'_>, WrongOption> {
    let mut reading = Reading::of(line, subcommand);
    reading.take_all()?;
    let lamps = reading.lamps.ok_or(WrongOption::LampsMissing)?;
    Ok(ChainOptions {
        options: reading.options()?,
        raw: reading.raw,
        lamps,
        defaults: reading.defaults,
    })
}
