// The client's record lent to a delivery, which updates it; a client's answers to a host.
#![tactic(auto)]

pub mod answers;
pub mod short;

ghost use Rattle.std.specs.Prelude.{◌≡◌};
ghost use Rattle.sha256.specs.Hash.{digest_of};
ghost use Rattle.client_rules.specs.Delivery.{outcome, delivery};

use blocks::Params;
use client_rules::{Answer, Answered, Client};
use frame::Party;

// Delivers a frame to the client whose record is lent: takes the step by value, and stores the record that it returns.
pub fn deliver(
    rec: &mut Client,
    g: Params,
    me: u8,
    value: &[u8],
    from: Party,
    f: &[u8],
    area: &mut [u8],
    res: &mut [u8],
    out: &mut [u8],
    to: &mut [u8],
) -> Answer
    ensures { outcome (record { answer = result; client = rec.new }) area.new res.new out.new to.new
        ≡ delivery digest_of g me rec.old area.old value.now from f.now res.old
        out.old to.old }
{
    let stepped = client_deliver::deliver(g, me, *rec, value, from, f, area, res, out, to);
    *rec = stepped.client;
    stepped.answer
}

// The same with the record by value: it is lent to deliver for the call, so that callers hold no reference to it.
pub fn lend(
    s: Client,
    g: Params,
    me: u8,
    value: &[u8],
    from: Party,
    f: &[u8],
    area: &mut [u8],
    res: &mut [u8],
    out: &mut [u8],
    to: &mut [u8],
) -> Answered
    ensures { outcome result area.new res.new out.new to.new
        ≡ delivery digest_of g me s area.old value.now from f.now res.old
        out.old to.old }
{
    let mut rec = s;
    let answer = deliver(&mut rec, g, me, value, from, f, area, res, out, to);
    Answered {
        answer,
        client: rec,
    }
}
