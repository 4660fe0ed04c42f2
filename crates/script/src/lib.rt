// A script read from a file and done on a chain, line by line, in constant memory; a telegram of a raw capture done likewise. The crate
// `lines` has what a line says and what is printed of it.
#![tactic(auto)]

mod file;

use files::{Output, Stop};
use lines::{Given, Holds, Line, Style, Telegram, line_at};
use rules::Place;

// How far a script, or a capture, is done: how many of its lines or bytes, whether the chain refused anything, whether it did a telegram of
// the capture that may be an answer.
#[derive(Clone, Copy, Default)]
pub struct Run {
    pub done: u64,
    pub refused: bool,
    pub either: bool,
}

// A script, or a capture, that is done on a chain: what is printed of its lines, the chain's memory, how far it is done.
#[derive(Drop)]
pub struct Playing<'r, 'a, R> {
    pub output: Output<'r, 'a, R>,
    pub memory: &'a mut [u8],
    pub style: Style,
    pub run: Run,
}

// Delivers a telegram. Of more than 16 bytes the first 16 are delivered: any of more than 12 is refused for its first three bytes and
// its count alone, so that the refusal is the same.
fn deliver(memory: &mut [u8], s: &[u8]) -> Given {
    let mut room = [0u8; 16];
    let count = chain::deliver(memory, s, &mut room)?;
    if count == 0 {
        return Ok(None);
    }
    Ok(Some(Telegram { room, count }))
}

// Does what a line says; one that says nothing has no answer.
fn act(memory: &mut [u8], line: &Line) -> Given {
    match line {
        Line::Sent(t) | Line::Captured(t) => deliver(memory, t.bytes()),
        Line::Sensor(r) => {
            chain::sense(memory, Place(r.place as usize), r.temperature, r.faults)?;
            Ok(None)
        }
        Line::Blank | Line::Malformed => Ok(None),
    }
}

impl<'r, 'a, R: Print> Playing<'r, 'a, R> {
    // A run at its start.
    pub fn over(
        output: Output<'r, 'a, R>,
        memory: &'a mut [u8],
        style: Style,
    ) -> Playing<'r, 'a, R> {
        Playing {
            output,
            memory,
            style,
            run: Run::default(),
        }
    }

    // The line behind those that were done is malformed.
    fn malformed(&self) -> Stop {
        Stop::Malformed(self.run.done.wrapping_add(1))
    }

    // Does a line that says something.
    fn do_said(&mut self, line: &Line) {
        let given = act(self.memory, line);
        lines::put_line(
            &mut self.output.page,
            self.style,
            self.run.done,
            line,
            &given,
        );
        self.run.refused = self.run.refused || given.is_err();
        self.run.either = self.run.either || lines::is_either(line, &given);
    }

    // Does a line.
    fn do_line(&mut self, line: &Line) -> Result<(), Stop> {
        self.output.make_room()?;
        match line {
            Line::Malformed => return Err(self.malformed()),
            Line::Blank => {}
            _ => self.do_said(line),
        }
        self.run.done = self.run.done.wrapping_add(line.step());
        Ok(())
    }

    // Does each whole line of a text. Answers where the line begins that is not whole. (The index is where the next line begins, which the
    // loop does not count.)
    pub fn do_lines(&mut self, s: &[u8], holds: Holds) -> Result<usize, Stop> {
        let mut at = 0;
        for _ in 0..s.len() {
            let Some((line, next)) = line_at(s, at, holds) else {
                return Ok(at);
            };
            self.do_line(&line)?;
            at = next;
        }
        Ok(at)
    }
}
