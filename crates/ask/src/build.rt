// osp build: a telegram from an address, a command's name and its values.
use command::{Command, Pwm};
use complaint::{Complaint, Status, Subcommand, Voice};
use table::Cast;
use telegram::Address;
use text::reading::{Words, address_of, decimal_of, hex_at};
use text::{Page, first, from};

// What an address stands for; one that is no destination is taken as one lamp's, which the builder refuses.
fn cast_of(address: Address) -> Cast {
    table::destination_of(address).unwrap_or(Cast::One(address))
}

// To whom a telegram goes, by the next words. A group above 255 is taken as 255, which is none either.
fn cast_in(words: &mut Words) -> Option<Cast> {
    let word = words.next_word();
    match word {
        b"everyone" => Some(Cast::Everyone),
        b"group" => {
            let group = decimal_of(words.next_word())?;
            Some(Cast::Group(u8::try_from(group).unwrap_or(255)))
        }
        _ => Some(cast_of(Address(address_of(word)?))),
    }
}

// Whether a word that is a mode is that of the day.
fn day_in(word: &[u8]) -> Option<bool> {
    match word {
        b"night" => Some(false),
        b"day" => Some(true),
        _ => None,
    }
}

// A mode and a duty, by the next words. A duty above 65,535 is taken as that, which is out of range too.
fn colour_in(words: &mut Words) -> Option<Pwm> {
    let day = day_in(words.next_word())?;
    let duty = decimal_of(words.next_word())?;
    Some(Pwm {
        day,
        duty: u16::try_from(duty).unwrap_or(65535),
    })
}

// The command that sets three PWM words, acknowledged or not, by the next words; no word follows them.
fn colours_in(words: &mut Words, number: u8) -> Option<Command> {
    let red = colour_in(words)?;
    let green = colour_in(words)?;
    let blue = colour_in(words)?;
    if !words.next_word().is_empty() {
        return None;
    }
    if table::is_acknowledged(number) {
        return Some(Command::SetPwmSr(red, green, blue));
    }
    Some(Command::SetPwm(red, green, blue))
}

// The command of a number whose payload's bytes are the rest of the line. (`?` makes a complaint of the refusal.)
fn command_of(number: u8, rest: &[u8]) -> Result<Command, Complaint<'static>> {
    let mut bytes = [0u8; 16];
    let h = hex_at(rest, 0, &mut bytes);
    if h.at < rest.len() {
        return Err(Complaint::PayloadExpected);
    }
    Ok(command::compose(number, first(&bytes, h.count))?)
}

// The command that the words behind the address say: its name, and its values as colours or in hex.
fn command_in<'a>(words: &mut Words<'a>) -> Result<Command, Complaint<'a>> {
    let name = words.next_word();
    let number = words::command_named(name).ok_or(Complaint::NoCommand(name))?;
    let mut ahead = *words;
    if table::plain_number(number) == 0x4F && day_in(ahead.next_word()).is_some() {
        return colours_in(words, number).ok_or(Complaint::PayloadExpected);
    }
    command_of(number, words.rest())
}

// Puts the telegram that a line says. Answers how many bytes it has.
fn build_line<'a>(line: &'a [u8], out: &mut [u8]) -> Result<usize, Complaint<'a>> {
    let mut words = Words::of(line);
    let cast = cast_in(&mut words).ok_or(Complaint::AddressExpected)?;
    let command = command_in(&mut words)?;
    Ok(command::build_command(command, cast, out)?)
}

// Prints the bytes of a telegram, without the space before the first.
fn print_bytes<R: Print>(rt: &R, voice: Voice, s: &[u8]) -> Status {
    let mut room = [0u8; 40];
    let mut page = Page::over(&mut room);
    page.put_spaced_hex(s);
    page.put_byte(b'\n');
    voice.finish(rt, from(page.written(), 1), Status::Done)
}

// The subcommand.
pub fn build<R: Print>(rt: &R, arguments: &[u8], err: i32) -> Status {
    let voice = Voice::new(err, Subcommand::Build);
    let mut room = io::buffer();
    let mut line = Page::over(&mut room);
    line.put_arguments(arguments);
    let mut telegram = [0u8; 12];
    match build_line(line.written(), &mut telegram) {
        Ok(n) => print_bytes(rt, voice, first(&telegram, n)),
        Err(what) => voice.say(what),
    }
}
