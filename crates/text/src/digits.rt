// The digits of a number: in hex, and in decimal in five places. A replay prints them for each telegram: `write!` takes longer
// (docs/DECISIONS.md).
ghost use Rattle.std.specs.Prelude.{◌≡◌, ◌+◌, ◌/◌, ◌%◌, ◌∷◌, ◌++◌, if◌then◌else◌, nat_eq};
ghost use Rattle.text.specs.Putting.{hex_digit, in_hex, empty_places, in_five};

// The character of a number below 16.
pub fn digit(n: u8) -> u8
    ensures { result ≡ hex_digit n }
{
    let d = n % 16;
    if d < 10 { b'0' + d } else { b'A' - 10 + d }
}

// The four hex digits of a word, with a space before them.
pub fn hex_five(n: u16) -> [u8; 5]
    ensures { result ≡ 32 ∷ (in_hex (n / 256) ++ in_hex (n % 256)) }
{
    let high = bits::high(n);
    let low = bits::low(n);
    [
        b' ',
        digit(high / 16),
        digit(high),
        digit(low / 16),
        digit(low),
    ]
}

// How many of five places a number leaves empty.
pub(crate) fn empty_places(n: u16) -> usize
    ensures { result ≡ empty_places n }
{
    match n {
        0..=9 => 4,
        10..=99 => 3,
        100..=999 => 2,
        1000..=9999 => 1,
        _ => 0,
    }
}

// The decimal digits of a number, with spaces before them.
pub fn five(n: u16) -> [u8; 5]
    ensures { result ≡ in_five n }
{
    [
        leading(n / 10000),
        leading(n / 1000),
        leading(n / 100),
        leading(n / 10),
        last_digit(n),
    ]
}

// The last digit of a number, or a space for 0.
fn leading(n: u16) -> u8
    ensures { result ≡ (if nat_eq n 0 then 32 else 48 + n % 10) }
{
    if n == 0 { b' ' } else { last_digit(n) }
}

fn last_digit(n: u16) -> u8
    ensures { result ≡ 48 + n % 10 }
{
    b'0' + (n % 10) as u8
}
