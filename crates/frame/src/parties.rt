// Parties: their numbers, which of them are servers, and the two bytes that name one.
ghost use Rattle.std.specs.Prelude.{◌≡◌};
ghost use Rattle.frame.specs.Messages.{number_in, from_server};
ghost use Rattle.frame.specs.Outbox.{party_bytes, party_in};

use crate::Party;
use blocks::Params;

// The number of a party.
pub fn number_in(p: Party) -> u8
    ensures { result ≡ number_in p }
{
    match p {
        Party::Client(c) => c,
        Party::Server(j) => j,
    }
}

// Whether the sender is one of servers 1 to n.
pub fn from_server(g: Params, from: Party) -> bool
    ensures { result ≡ from_server g from }
{
    match from {
        Party::Client(_) => false,
        Party::Server(j) => 1 <= j && j as usize <= g.n,
    }
}

// The class and the number of a party.
pub fn party_bytes(p: Party) -> [u8; 2]
    ensures { result ≡ party_bytes p }
{
    match p {
        Party::Client(c) => [0, c],
        Party::Server(j) => [1, j],
    }
}

// The party of a class and a number: class 0 is a client, any other a server.
pub fn party_in(class: u8, number: u8) -> Party
    ensures { result ≡ party_in class number }
{
    match class {
        0 => Party::Client(number),
        _ => Party::Server(number),
    }
}
