// The search of a client's rows, and the end of a read.
#![tactic(auto)]

pub mod at_stamp;
pub mod ending;
pub mod searching;

ghost use Rattle.std.specs.Prelude.{◌≡◌, length};
ghost use Rattle.sha256.specs.Hash.{digest_of};
ghost use Rattle.client_rules.specs.Steps.{settle};
ghost use Rattle.client.specs.Stages.{Lent, stepped};
ghost use Rattle.client_rules.specs.Delivery.{outcome};

use blocks::Params;
use client_rules::{Answer, Answered, Client};
use ending::finish;
use searching::search;

// What the servers' rows have at a stamp, place j for server j: whether there is an entry, and the chunk of the rows area in which it lies; place 0 stays
// empty.
#[derive(Clone, Copy)]
pub struct Hits {
    pub on: [bool; 11],
    pub at: [usize; 11],
}

// After a value was kept or dropped: the rows are searched, and the read ends if n - t of them agree.
pub fn settle(
    s: Client,
    g: Params,
    me: u8,
    area: &[u8],
    res: &mut [u8],
    out: &mut [u8],
    to: &mut [u8],
) -> Answered
    requires { Lent g (length area.now) (length res.old) (length out.old) (length to.old) }
    ensures { outcome result area.now res.new out.new to.new
        ≡ stepped (settle digest_of g me s area.now) res.old out.old to.old }
{
    let Some((j, i)) = search(s.rows, area, g) else {
        return Answered {
            answer: Answer::Sent(0),
            client: s,
        };
    };
    finish(s, g, me, j, i, area, res, out, to)
}
