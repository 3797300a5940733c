// What frames do to a client: the entry point `deliver`.
#![tactic(auto)]

pub mod dispersal;
pub mod reading;
pub mod tests;
pub mod writing;

ghost use Rattle.std.specs.Prelude.{◌≡◌, length};
ghost use Rattle.sha256.specs.Hash.{digest_of};
ghost use Rattle.frame.specs.Params.{params_test};
ghost use Rattle.frame.specs.Stamps.{last_client};
ghost use Rattle.frame.specs.Refusals.{and_then};
ghost use Rattle.frame.specs.Frames.{message_in};
ghost use Rattle.client_rules.specs.State.{writing};
ghost use Rattle.client_rules.specs.Tests.{value_test, message_test};
ghost use Rattle.client_rules.specs.Steps.{effect};
ghost use Rattle.client_rules.specs.Delivery.{outcome, delivery};
ghost use Rattle.client.specs.Stages.{answered};
ghost use Rattle.client_deliver.specs.Needs.{Admitted};

use blocks::Params;
use client::Call;
use client::tests::{room_test, value_test};
use client_rules::{Answer, Answered, Client, Phase};
use frame::bounds::params_test;
use frame::opener::open_frame;
use frame::places::CLIENTS;
use frame::{Party, Refusal};
use reading::on_value;
use writing::{on_ack, on_report, on_stamp};

// Refusals 1 to 3: the parameters, the own number, and the value's length, which must be L where a write is open.
fn call_test(g: Params, me: usize, p: Phase, value: usize) -> Result<(), Refusal>
    ensures { result ≡ and_then (params_test g me last_client) (value_test g p value) }
{
    params_test(g, me, CLIENTS)?;
    value_test(g, p, value)
}

// The step of an opened frame, or its refusal by 11 to 14.
fn step(
    s: Client,
    k: Call,
    value: &[u8],
    f: &[u8],
    area: &mut [u8],
    res: &mut [u8],
    out: &mut [u8],
    to: &mut [u8],
) -> Answered
    requires { Admitted k.params s k.header.kind (length value.now) (length f.now) (length area.old) (length res.old)
        (length out.old) (length to.old) }
    ensures { outcome result area.new res.new out.new to.new
        ≡ answered (message_test digest_of k.params k.me s k.from (message_in k.params k.header f.now)) s area.old
        (effect digest_of k.params k.me s area.old value.now k.from (message_in k.params k.header f.now))
        res.old out.old to.old }
{
    match k.header.kind {
        2 => on_stamp(s, k, value, f, out, to),
        9 => on_ack(s, k),
        11 => on_value(s, k, f, area, res, out, to),
        13 => on_report(s, k, value, f, out, to),
        _ => Answered {
            answer: Answer::Refused(Refusal::Sender),
            client: s,
        },
    }
}

// Delivers a frame to client me, whose open write's value is lent: the entry point.
pub fn deliver(
    g: Params,
    me: u8,
    s: Client,
    value: &[u8],
    from: Party,
    f: &[u8],
    area: &mut [u8],
    res: &mut [u8],
    out: &mut [u8],
    to: &mut [u8],
) -> Answered
    ensures { outcome result area.new res.new out.new to.new
        ≡ delivery digest_of g me s area.old value.now from f.now res.old out.old to.old }
{
    let p = s.phase;
    let call = call_test(g, me as usize, p, value.len());
    if let Err(r) = call {
        return Answered {
            answer: Answer::Refused(r),
            client: s,
        };
    }
    let opened = open_frame(g, f);
    match opened {
        Err(r) => Answered {
            answer: Answer::Refused(r),
            client: s,
        },
        Ok(header) => {
            let room = room_test(g, area.len(), res.len(), out.len(), to.len());
            if let Err(r) = room {
                return Answered {
                    answer: Answer::Refused(r),
                    client: s,
                };
            }
            let k = Call {
                params: g,
                me,
                from,
                header,
            };
            step(s, k, value, f, area, res, out, to)
        }
    }
}
