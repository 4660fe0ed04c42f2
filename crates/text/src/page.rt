// A lent buffer that is written from the front.
ghost use Rattle.std.specs.Prelude.{◌≡◌, ℕ, List, ◌-◌, ◌/◌, ◌%◌, ◌++◌, [], ◌∷◌, map, take, drop, replicate};
ghost use Rattle.text.specs.Putting.{text, appended, appended_all, spaces, in_hex, spaced_hex, decimal, argument};

use crate::digits::{digit, empty_places, five, hex_five};
use crate::{first, from};
use std::convert::AsSlice;
use std::fmt;
use std::fmt::Write;

// A lent buffer of which `used` bytes are written. What does not fit is left out.
#[derive(Drop)]
pub struct Page<'a> {
    pub room: &'a mut [u8],
    pub used: usize,
}

// (The clause `same_room` stands at each method that says what the room holds after it: Rattle asks for it there.)
impl<'a> Page<'a> {
    // A page over a buffer, with nothing written.
    pub fn over(room: &'a mut [u8]) -> Page<'a>
        ensures same_room { result.room.ghost_name ≡ room.entry.ghost_name }
        ensures empty { text result.used result.room.now ≡ text 0 room.old }
    {
        Page { room, used: 0 }
    }

    // The bytes that are written.
    pub fn written(&self) -> &[u8]
        ensures { result.now ≡ take self.now.used self.now.room.now }
    {
        first(self.room, self.used)
    }

    // Begins anew: nothing is written.
    pub fn clear(&mut self)
        ensures same_room { self.new.room.ghost_name ≡ self.old.room.ghost_name }
        ensures empty { text self.new.used self.new.room.now ≡ text 0 self.old.room.now }
    {
        self.used = 0;
    }

    // Appends a word.
    pub fn put(&mut self, word: &[u8])
        ensures same_room { self.new.room.ghost_name ≡ self.old.room.ghost_name }
        ensures put { text self.new.used self.new.room.now ≡ appended word.now (text self.old.used self.old.room.now) }
    {
        let room = self.room.len();
        let at = self.used;
        let n = word.len();
        if at <= room && n <= room - at {
            self.room[at..at + n].copy_from_slice(word);
            self.used = at + n;
        }
    }

    // Appends a character.
    pub fn put_byte(&mut self, b: u8)
        ensures same_room { self.new.room.ghost_name ≡ self.old.room.ghost_name }
        ensures put { text self.new.used self.new.room.now ≡ appended (b ∷ []) (text self.old.used self.old.room.now) }
    {
        let at = self.used;
        if at < self.room.len() {
            self.room[at] = b;
            self.used = at + 1;
        }
    }

    // Appends a character n times.
    pub fn put_times(&mut self, b: u8, n: usize)
        ensures same_room { self.new.room.ghost_name ≡ self.old.room.ghost_name }
        ensures put { text self.new.used self.new.room.now ≡ appended_all (replicate n (b ∷ [])) (text self.old.used self.old.room.now) }
    {
        for _ in 0..n {
            self.put_byte(b);
        }
    }

    // Appends spaces up to a column, of which the line began at `start`; at most 64.
    pub fn put_spaces(&mut self, start: usize, column: usize)
        ensures same_room { self.new.room.ghost_name ≡ self.old.room.ghost_name }
        ensures put { text self.new.used self.new.room.now ≡ appended (spaces (column - (self.old.used - start))) (text self.old.used self.old.room.now) }
    {
        let spaces = b"                                                                ";
        let missing = column.saturating_sub(self.used.saturating_sub(start));
        self.put(first(spaces, missing));
    }

    // Appends a byte in hex.
    pub fn put_hex(&mut self, b: u8)
        ensures same_room { self.new.room.ghost_name ≡ self.old.room.ghost_name }
        ensures put { text self.new.used self.new.room.now ≡ appended (in_hex b) (text self.old.used self.old.room.now) }
    {
        self.put(&in_hex(b));
    }

    // Appends a word in hex, four digits.
    pub fn put_word(&mut self, n: u16)
        ensures same_room { self.new.room.ghost_name ≡ self.old.room.ghost_name }
        ensures put { text self.new.used self.new.room.now ≡ appended (in_hex (n / 256) ++ in_hex (n % 256)) (text self.old.used self.old.room.now) }
    {
        self.put_last_digits(n, 1);
    }

    // Appends an address in hex, the last three digits.
    pub fn put_address(&mut self, n: u16)
        ensures same_room { self.new.room.ghost_name ≡ self.old.room.ghost_name }
        ensures put { text self.new.used self.new.room.now ≡ appended (drop 1 (in_hex (n / 256) ++ in_hex (n % 256))) (text self.old.used self.old.room.now) }
    {
        self.put_last_digits(n, 2);
    }

    // Appends a space and a word in hex, without the first characters of these five.
    fn put_last_digits(&mut self, n: u16, hidden: usize)
        ensures same_room { self.new.room.ghost_name ≡ self.old.room.ghost_name }
        ensures put { text self.new.used self.new.room.now ≡ appended (drop hidden (32 ∷ (in_hex (n / 256) ++ in_hex (n % 256)))) (text self.old.used self.old.room.now) }
    {
        let digits = hex_five(n);
        self.put(from(&digits, hidden));
    }

    // Appends a number in decimal. One of at most five digits is the most frequent.
    pub fn put_decimal(&mut self, n: u64)
        ensures same_room { self.new.room.ghost_name ≡ self.old.room.ghost_name }
        ensures put { text self.new.used self.new.room.now ≡ appended (decimal n) (text self.old.used self.old.room.now) }
    {
        if n < 65536 {
            let short = five(n as u16);
            self.put(from(&short, empty_places(n as u16)));
            return;
        }
        let mut digits = [0u8; 20];
        let k = io::decimal(n, &mut digits);
        self.put(&digits[..k]);
    }

    // Appends each byte in hex.
    pub fn put_all_hex(&mut self, s: &[u8])
        ensures same_room { self.new.room.ghost_name ≡ self.old.room.ghost_name }
        ensures put { text self.new.used self.new.room.now ≡ appended_all (map in_hex s.now) (text self.old.used self.old.room.now) }
    {
        self.put_each(s, in_hex);
    }

    // Appends each byte in hex with a space before it.
    pub fn put_spaced_hex(&mut self, s: &[u8])
        ensures same_room { self.new.room.ghost_name ≡ self.old.room.ghost_name }
        ensures put { text self.new.used self.new.room.now ≡ appended_all (map spaced_hex s.now) (text self.old.used self.old.room.now) }
    {
        self.put_each(s, spaced_hex);
    }

    // Appends arguments as words of a line: the byte 0 behind each is a space.
    pub fn put_arguments(&mut self, arguments: &[u8])
        ensures same_room { self.new.room.ghost_name ≡ self.old.room.ghost_name }
        ensures put { text self.new.used self.new.room.now ≡ appended_all (map argument arguments.now) (text self.old.used self.old.room.now) }
    {
        self.put_each(arguments, argument);
    }

    // Appends for each byte the word that a form gives for it.
    fn put_each<W: AsSlice<u8> + Drop, F: Fn(u8) -> W>(&mut self, s: &[u8], form: F)
        requires { F.IsAlwaysCallable form }
        ensures same_room { self.new.room.ghost_name ≡ self.old.room.ghost_name }
        ensures put { (word : ℕ → List ℕ) → ((b : _) (w : _) → F.post form b w → W.items w ≡ word b) → text self.new.used self.new.room.now ≡ appended_all (map word s.now) (text self.old.used self.old.room.now) }
    {
        for b in s {
            self.put(form(*b).as_slice());
        }
    }
}

// A byte in hex.
#[tactic(auto, unfolding(crate::specs::Putting::in_hex))]
fn in_hex(b: u8) -> [u8; 2]
    ensures { result ≡ in_hex b }
{
    [digit(b / 16), digit(b)]
}

// A byte in hex with a space before it.
#[tactic(auto, unfolding(crate::specs::Putting::spaced_hex, crate::specs::Putting::in_hex))]
fn spaced_hex(b: u8) -> [u8; 3]
    ensures { result ≡ spaced_hex b }
{
    [b' ', digit(b / 16), digit(b)]
}

// A byte of the arguments; the byte 0, which separates them, as a space.
#[tactic(auto, unfolding(crate::specs::Putting::argument, crate::specs::Putting::unseparated))]
fn argument(b: u8) -> [u8; 1]
    ensures { result ≡ argument b }
{
    [if b == 0 { b' ' } else { b }]
}

// What `write!` writes is appended piece by piece, each as a word is that is put.
impl<'a> fmt::Write for Page<'a> {
    ghost write_str_gives = { λ before piece after. (after.room.ghost_name ≡ before.room.ghost_name)
        × (text after.used after.room.now ≡ appended piece (text before.used before.room.now)) };

    fn write_str(&mut self, s: &str) -> fmt::Result {
        self.put(s.as_bytes());
        Ok(())
    }
}
