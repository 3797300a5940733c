// The sender of a frame, which a host names by two numbers.
ghost use Rattle.std.specs.Prelude.{◌≡◌};
ghost use Rattle.semduoli.specs.Handed.{sender_of};

use frame::Party;
use frame::parties::party_in;

// Class 0 is a client, class 1 a server; any other class, and a number above 255, is nobody.
pub fn sender_of(class: usize, number: usize) -> Party
    ensures { result ≡ sender_of class number }
{
    if 255 < number || 1 < class {
        return Party::Client(255);
    }
    party_in(class as u8, number as u8)
}
