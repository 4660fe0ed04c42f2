// The chain as a picture: where a lamp stands, its colour, what is told of it.
ghost use Rattle.std.specs.Prelude.{◌≤◌};

use crate::status_of;
use command::pwm_of;
use rules::{Lamp, State};
use std::fmt::Write;
use text::Page;
use words::{direction_name, mode_name, put_flags, state_name};

// The shade of a PWM word: 255 times the duty's share of 32,767 to the power of 1/2.2, by the duty's top eight bits; the smallest duties
// are not quite dark.
fn shade_of(word: u16) -> u8 {
    let duty = pwm_of(word).duty;
    if duty == 0 {
        return 0;
    }
    let shades =
        b"\x0F\x15\x1C\x22\x27\x2B\x2E\x32\x35\x38\x3A\x3D\x3F\x42\x44\x46\x48\x4A\x4C\x4E\x50\x52\x54\x55\x57\x59\x5A\x5C\x5D\x5F\x60\x62\x63\x64\x66\x67\x69\x6A\x6B\x6C\x6E\x6F\x70\x71\x73\x74\x75\x76\x77\x78\x79\x7A\x7C\x7D\x7E\x7F\x80\x81\x82\x83\x84\x85\x86\x87\x88\x89\x8A\x8B\x8C\x8D\x8D\x8E\x8F\x90\x91\x92\x93\x94\x95\x95\x96\x97\x98\x99\x9A\x9A\x9B\x9C\x9D\x9E\x9F\x9F\xA0\xA1\xA2\xA3\xA3\xA4\xA5\xA6\xA6\xA7\xA8\xA9\xA9\xAA\xAB\xAC\xAC\xAD\xAE\xAE\xAF\xB0\xB1\xB1\xB2\xB3\xB3\xB4\xB5\xB5\xB6\xB7\xB7\xB8\xB9\xB9\xBA\xBB\xBB\xBC\xBD\xBD\xBE\xBF\xBF\xC0\xC1\xC1\xC2\xC2\xC3\xC4\xC4\xC5\xC6\xC6\xC7\xC7\xC8\xC9\xC9\xCA\xCA\xCB\xCC\xCC\xCD\xCD\xCE\xCF\xCF\xD0\xD0\xD1\xD1\xD2\xD3\xD3\xD4\xD4\xD5\xD5\xD6\xD7\xD7\xD8\xD8\xD9\xD9\xDA\xDA\xDB\xDB\xDC\xDD\xDD\xDE\xDE\xDF\xDF\xE0\xE0\xE1\xE1\xE2\xE2\xE3\xE3\xE4\xE4\xE5\xE5\xE6\xE7\xE7\xE8\xE8\xE9\xE9\xEA\xEA\xEB\xEB\xEC\xEC\xED\xED\xEE\xEE\xEF\xEF\xEF\xF0\xF0\xF1\xF1\xF2\xF2\xF3\xF3\xF4\xF4\xF5\xF5\xF6\xF6\xF7\xF7\xF8\xF8\xF9\xF9\xF9\xFA\xFA\xFB\xFB\xFC\xFC\xFD\xFD\xFE\xFE\xFF";
    text::byte_at(shades, (duty / 128) as usize)
}

// How many lamps stand in a row.
fn columns_for(lamps: u16) -> u16
    ensures { 1 ≤ result }
{
    match lamps {
        0..=60 => 12,
        61..=480 => 24,
        _ => 32,
    }
}

// Where a lamp of 60 by 80 stands.
fn left_of(place: u16, lamps: u16) -> u32 {
    20 + (place % columns_for(lamps)) as u32 * 60
}

fn top_of(place: u16, lamps: u16) -> u32 {
    20 + (place / columns_for(lamps)) as u32 * 80
}

// Where the rows of lamps end.
fn bottom_of(lamps: u16) -> u32 {
    if lamps == 0 {
        return 20;
    }
    top_of(lamps - 1, lamps).wrapping_add(100)
}

// The start of the picture.
pub(crate) fn put_start(page: &mut Page, lamps: u16) {
    let width = 40 + columns_for(lamps) as u32 * 60;
    let height = bottom_of(lamps).wrapping_add(36);
    let _ = write!(
        page,
        "<svg xmlns=\"http://www.w3.org/2000/svg\" width=\"{width}\" height=\"{height}\" viewBox=\"0 0 {width} {height}\" font-family=\"monospace\" font-size=\"12\" fill=\"#D8DCE0\">
<rect width=\"{width}\" height=\"{height}\" fill=\"#202428\"/>
"
    );
}

// Appends a lamp: where it stands, what is told of it, a ring, its disc, its place and its address. (In the pieces that stand here: of a page
// that could not be written and is full, each is left out whole. Numbers in hex are a piece each, which by `write!` they are not.)
pub(crate) fn put_lamp(page: &mut Page, place: u16, lamps: u16, l: Lamp) {
    let _ = write!(
        page,
        "<g transform=\"translate({} {})\" text-anchor=\"middle\"><title>place {place}, address ",
        left_of(place, lamps),
        top_of(place, lamps)
    );
    put_title(page, l);
    put_ring(page, status_of(l));
    put_disc(page, l);
    let _ = write!(
        page,
        "<text x=\"30\" y=\"59\" font-weight=\"bold\">{place}</text><text x=\"30\" y=\"72\">"
    );
    page.put_address(l.address.0);
    page.put(b"</text></g>\n");
}

// Appends what is told, behind its place, to whoever points at a lamp: address, state, COM, flags, colours.
fn put_title(page: &mut Page, l: Lamp) {
    let status = status_of(l);
    page.put_address(l.address.0);
    let _ = write!(
        page,
        ": {}, {}, ",
        state_name(status),
        direction_name(status)
    );
    put_flags(page, status, b"no flags");
    page.put(b"; ");
    let red = pwm_of(l.pwm.red);
    let green = pwm_of(l.pwm.green);
    let blue = pwm_of(l.pwm.blue);
    let _ = write!(
        page,
        "red {} {}, green {} {}, blue {} {}</title>",
        mode_name(red.day),
        red.duty,
        mode_name(green.day),
        green.duty,
        mode_name(blue.day),
        blue.duty
    );
}

// Appends a ring around the disc where the status byte has a flag set: any bit but the state's and COM's.
fn put_ring(page: &mut Page, status: u8) {
    if status & 0x2F != 0 {
        page.put(
            b"<circle cx=\"30\" cy=\"24\" r=\"22\" fill=\"none\" stroke=\"#FF4040\" stroke-width=\"3\"/>",
        );
    }
}

// Appends the lamp's disc, in its colour; dimmed, with a dashed rim, where the lamp is not ACTIVE.
fn put_disc(page: &mut Page, l: Lamp) {
    page.put(b"<circle cx=\"30\" cy=\"24\" r=\"17\" fill=\"#");
    page.put_hex(shade_of(l.pwm.red));
    page.put_hex(shade_of(l.pwm.green));
    page.put_hex(shade_of(l.pwm.blue));
    page.put(rim_of(l.state));
}

// How full a disc is and what its rim is like, behind its colour.
fn rim_of(state: State) -> &'static [u8] {
    match state {
        State::Active => b"\" stroke=\"#707880\"/>",
        _ => b"\" fill-opacity=\"0.3\" stroke=\"#A0A8B0\" stroke-dasharray=\"4 3\"/>",
    }
}

// The end of the picture: what is seen.
pub(crate) fn put_end(page: &mut Page, lamps: u16) {
    let y = bottom_of(lamps);
    let _ = write!(
        page,
        "<text x=\"20\" y=\"{y}\">Lamps: {lamps}. Place in bold, address in hex (3FF: none). Dimmed, dashed: not ACTIVE. Red ring: a flag.</text>
<text x=\"20\" y=\"{}\">Colour: 255 x (duty / 32767)^(1/2.2) for red, green and blue; day and night current alike.</text>
</svg>
",
        y.wrapping_add(18)
    );
}
