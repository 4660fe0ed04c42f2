// What a function returns: the number of a refusal with what it carries, or how many bytes were written.
ghost use Rattle.std.specs.Prelude.{◌≡◌, ℕ, ◌<◌};
ghost use Rattle.telegram.specs.Numbers.{done, reason_of, value_of, outcome_of};
ghost use Rattle.reader.specs.Interface.{packed};

use telegram::Refusal;

// A refusal as it is returned.
pub(crate) fn refusal_returned(e: Refusal) -> u32
    ensures { result ≡ value_of (reason_of e) }
{
    telegram::refusal_value(e)
}

// A count of written bytes, or a refusal, as it is returned.
fn count_returned(r: Result<usize, Refusal>) -> u32
    requires { (n : ℕ) → outcome_of r ≡ done n → n < 65536 }
    ensures { result ≡ packed (outcome_of r) }
{
    match r {
        Ok(n) => n as u32 * 256,
        Err(e) => refusal_returned(e),
    }
}

// A builder's answer as it is returned.
pub(crate) fn built_returned(built: Result<usize, Refusal>) -> u32
    requires { (n : ℕ) → outcome_of built ≡ done n → n < 65536 }
    ensures { result ≡ packed (outcome_of built) }
{
    count_returned(built)
}

// What a call on a chain answered, as it is returned. (Builders and calls on a chain count alike, and an edit of each has one place.)
pub(crate) fn delivered_returned(delivered: Result<usize, Refusal>) -> u32
    requires { (n : ℕ) → outcome_of delivered ≡ done n → n < 65536 }
    ensures { result ≡ packed (outcome_of delivered) }
{
    count_returned(delivered)
}
