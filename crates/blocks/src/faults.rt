// Why a call is turned down, as a number.
ghost use Rattle.std.specs.Prelude.{◌≡◌};
ghost use Rattle.blocks.specs.Params.{number_of};

use crate::Fault;

// Document 01's number of a fault; 21 is document 02's, request F-7.
pub fn fault_number(f: Fault) -> u64
    ensures { result ≡ number_of f }
{
    f as u64
}
