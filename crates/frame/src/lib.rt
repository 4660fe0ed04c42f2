// A run of bytes cut into telegrams, without the checksum: document 02, request 01.
#![tactic(auto)]

ghost use Rattle.std.specs.Prelude.{◌≡◌};
ghost use Rattle.frame.specs.Frame.{cut_as, cutting};

use telegram::Refusal;

// What the bytes from a telegram's first on show: more are needed, a refusal, or a telegram of so many bytes. An enum of its own: these
// are three outcomes, which a Result of an Option would no longer name.
#[derive(Clone, Copy)]
pub enum Cut {
    Incomplete,
    Broken(Refusal),
    Whole(usize),
}

// What the bytes of `s`, from a telegram's first on, show. Refusals 2 and 3.
pub fn cut_first(s: &[u8]) -> Cut
    ensures { cut_as result ≡ cutting s.now }
{
    let n = s.len();
    if n < 1 {
        return Cut::Incomplete;
    }
    if s[0] / 16 != 10 {
        return Cut::Broken(Refusal::Preamble);
    }
    if n < 3 {
        return Cut::Incomplete;
    }
    let index = telegram::index_in(s[1], s[2]);
    if index == 5 {
        return Cut::Broken(Refusal::SizeIndex);
    }
    let total = 4 + telegram::size_of(index);
    if n < total {
        return Cut::Incomplete;
    }
    Cut::Whole(total)
}
