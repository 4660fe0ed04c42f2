// The subcommands of the tool, and how one ends.
use std::fmt;
use std::fmt::Write;

// The subcommands, by the names that stand in complaints. Help complains of a word that is no subcommand too; Arguments is none itself, and
// complains of arguments for which there is no room. (`tool` and `ask` match the words where they take them: `script`, `-h` and no word at
// all stand there too, and `arguments` does not, so that one list would not serve.)
#[derive(Clone, Copy, PartialEq, Eq)]
pub enum Subcommand {
    Fields,
    Build,
    Info,
    Replay,
    Board,
    Dump,
    Help,
    Arguments,
}

impl Subcommand {
    // Its name.
    fn name(self) -> &'static str {
        match self {
            Subcommand::Fields => "fields",
            Subcommand::Build => "build",
            Subcommand::Info => "info",
            Subcommand::Replay => "replay",
            Subcommand::Board => "board",
            Subcommand::Dump => "dump",
            Subcommand::Help => "help",
            Subcommand::Arguments => "arguments",
        }
    }
}

impl fmt::Display for Subcommand {
    fn fmt<W: fmt::Write>(&self, f: &mut fmt::Formatter<W>) -> fmt::Result {
        f.write_str(self.name())
    }
}

// How a subcommand ended: done, refused, or wrong use, or input or output that failed.
#[derive(Clone, Copy)]
pub enum Status {
    Done,
    Refused,
    Wrong,
}

impl Status {
    // The status of what was done, or refused.
    pub fn of(refused: bool) -> Status {
        if refused {
            Status::Refused
        } else {
            Status::Done
        }
    }
}

impl From<Status> for u8 {
    fn from(status: Status) -> u8 {
        match status {
            Status::Done => 0,
            Status::Refused => 1,
            Status::Wrong => 2,
        }
    }
}
