// What the bytes of a telegram hold, field by field.
use text::{byte_at, first};

// The fields; a byte that is missing counts as 0. `plain` is the number of the command's plain form.
#[derive(Clone, Copy)]
pub(crate) struct Facts {
    pub(crate) count: usize,
    pub(crate) preamble: u8,
    pub(crate) address: u16,
    pub(crate) index: u8,
    pub(crate) number: u8,
    pub(crate) plain: u8,
    pub(crate) received: u8,
    pub(crate) computed: u8,
}

// What the bytes hold.
pub(crate) fn facts_of(s: &[u8]) -> Facts {
    let b0 = byte_at(s, 0);
    let b1 = byte_at(s, 1);
    let b2 = byte_at(s, 2);
    let last = s.len().saturating_sub(1);
    Facts {
        count: s.len(),
        preamble: b0 / 16,
        address: words::address_in(b0, b1),
        index: telegram::index_in(b1, b2),
        number: b2 % 128,
        plain: table::plain_number(b2 % 128),
        received: byte_at(s, last),
        computed: checksum::checksum(first(s, last)),
    }
}
