// A line of a script, or a telegram of a raw capture in place of it: what it says, and what is printed of it once it was done, as text and
// as JSON. docs/TOOL.md has the forms.
#![tactic(auto)]

mod json;
mod plain;
mod reading;

ghost use Rattle.std.specs.Prelude.{◌≡◌, take};

pub use reading::line_at;
use telegram::Refusal;
use text::Page;

// What is printed of each line. (No trait with an impl for each style: the style is a value that an option gives, so that a match on it
// would choose the impl all the same.)
#[derive(Clone, Copy, PartialEq, Eq)]
pub enum Style {
    Text,
    Json,
    Silent,
}

// A line of more bytes is malformed.
pub const LONGEST_LINE: usize = 65000;

// What a text holds: lines that end with a line feed, the last line, which need not, or whole telegrams of a capture.
#[derive(Clone, Copy)]
pub enum Holds {
    Lines,
    LastLine,
    Telegrams,
}

// The first 16 bytes of a telegram, and how many it has (fixed memory: no heap in the tool).
#[derive(Clone, Copy)]
pub struct Telegram {
    pub room: [u8; 16],
    pub count: usize,
}

impl Telegram {
    // Its bytes, of more than 16 the first 16.
    pub fn bytes(&self) -> &[u8]
        ensures { result.now ≡ take self.now.count self.now.room }
    {
        text::first(&self.room, self.count)
    }
}

// A sensor report: the place of a lamp, its temperature, and the faults that it has.
#[derive(Clone, Copy)]
pub struct Report {
    pub place: u32,
    pub temperature: u8,
    pub faults: u32,
}

// What a line says: a telegram, as in a script or as in a capture, a sensor report, nothing, or what no line may say.
#[derive(Clone, Copy)]
pub enum Line {
    Sent(Telegram),
    Captured(Telegram),
    Sensor(Report),
    Blank,
    Malformed,
}

impl Line {
    // How far it is in what is counted: a line, or the bytes of a telegram of a capture.
    pub fn step(&self) -> u64 {
        match self {
            Line::Captured(t) => t.count as u64,
            _ => 1,
        }
    }
}

// What a chain gave for a line: its answer, if there is one, or its refusal.
pub type Given = Result<Option<Telegram>, Refusal>;

// Whether a line is a telegram of a capture that was done as a command and may be an answer: all answers to acknowledged commands have two
// bytes, so that it is such a command with two bytes itself.
pub fn is_either(line: &Line, given: &Given) -> bool {
    given.is_ok()
        && matches!(line, Line::Captured(t) if t.count == 6 && table::is_acknowledged(t.room[2] % 128))
}

// Appends what is printed of a line that was done: where it stands, what it says, and what the chain gave. `before` is how many lines of
// the script, or bytes of the capture, stand before it.
pub fn put_line(page: &mut Page, style: Style, before: u64, line: &Line, given: &Given) {
    match style {
        Style::Text => plain::put_line(page, before, line, given),
        Style::Json => json::put_line(page, before, line, given),
        Style::Silent => {}
    }
}

// Appends where a capture stopped, and by which refusal.
pub fn put_stopped(page: &mut Page, style: Style, position: u64, e: Refusal) {
    match style {
        Style::Text => plain::put_stopped(page, position, e),
        Style::Json => json::put_stopped(page, position, e),
        Style::Silent => {}
    }
}
