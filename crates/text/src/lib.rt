// Text for people: words, numbers and hex put into a lent buffer, and read from a line. What does not fit is left out; no public function
// has a `requires`.
#![tactic(auto)]

mod digits;
mod page;
mod pieces;
pub mod reading;
mod streams;

ghost use Rattle.std.specs.Prelude.{◌≡◌, min, length, take, drop, slice_index};
ghost use Rattle.io.specs.Counts.{IsPrefixLen};

pub use digits::{digit, five, hex_five};
pub use page::Page;
pub use pieces::find;
pub use streams::{ERR, FAILED, IN, OUT, number_of};

// The number nearest to n that counts bytes at the start of s.
pub fn within(n: usize, s: &[u8]) -> usize
    ensures prefix_len { IsPrefixLen result s.now }
    ensures value { result ≡ min n (length s.now) }
{
    n.min(s.len())
}

// The first n bytes; all where there are not so many.
pub fn first(s: &[u8], n: usize) -> &[u8]
    ensures { result.now ≡ take n s.now }
{
    let k = within(n, s);
    &s[..k]
}

// The bytes from an index on; none where there are not so many.
pub fn from(s: &[u8], at: usize) -> &[u8]
    ensures { result.now ≡ drop at s.now }
{
    let k = within(at, s);
    &s[k..]
}

// The bytes from an index up to another.
pub fn part(s: &[u8], at: usize, end: usize) -> &[u8]
    ensures { result.now ≡ drop at (take end s.now) }
{
    from(first(s, end), at)
}

// The byte at an index, 0 where there is none.
pub fn byte_at(s: &[u8], i: usize) -> u8
    ensures { result ≡ slice_index s.now i }
{
    if i < s.len() { s[i] } else { 0 }
}
