// Refusals by number, and tests one after the other.
ghost use Rattle.std.specs.Prelude.{◌≡◌};
ghost use Rattle.frame.specs.Refusals.{number_of, and_then};

use crate::Refusal;

// Document 01's number of a refusal.
pub fn number_of(r: Refusal) -> u8
    ensures { result ≡ number_of r }
{
    r as u8
}

// The outcome of the second test, unless the first has a refusal.
pub fn and_then(a: Result<(), Refusal>, b: Result<(), Refusal>) -> Result<(), Refusal>
    ensures { result ≡ and_then a b }
{
    a.and(b)
}
