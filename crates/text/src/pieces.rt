// Where a character stands in a text.
ghost use Rattle.std.specs.Prelude.{◌≡◌, ◌≢◌, ℕ, ◌<◌, ◌≤◌, slice_index};

use crate::byte_at;

// The index of the first byte b from one index up to another; the end where there is none (docs/PROMISES.md names the function). Behind a
// text stand bytes 0.
pub fn find(s: &[u8], at: usize, end: usize, b: u8) -> usize
    ensures low { at ≤ end → at ≤ result }
    ensures high { result ≤ end }
    ensures before { (k : ℕ) → at ≤ k → k < result → slice_index s.now k ≢ b }
    ensures found { result < end → slice_index s.now result ≡ b }
{
    (at..end).find(|i| byte_at(s, *i) == b).unwrap_or(end)
}
