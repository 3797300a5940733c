// What a server does with a frame that is handed in, its record being lent as bytes: the entry point deliver.
#![tactic(auto)]

ghost use Rattle.std.specs.Prelude.{◌≡◌};
ghost use Rattle.sha256.specs.Hash.{digest_of};
ghost use Rattle.server_rules.specs.Delivery.{reply_response};
ghost use Rattle.server_deliver.specs.Handed.{admitted};
ghost use Rattle.server_deliver.specs.Records.{byte_outcome, byte_delivery};

use crate::kinds::step;
use blocks::Params;
use frame::bounds::params_test;
use frame::opener::open_frame;
use frame::{Header, Party, Refusal};
use layout::servers::SERVER_SIZE;
use server::Call;
use server::tests::room_test;

pub mod answers;
pub mod fresh;
pub mod kinds;
pub mod rounds;

// Refusals 1 to 10, for which the server's state is not looked at; of the lent areas only the lengths count.
pub fn admit(
    g: Params,
    me: usize,
    f: &[u8],
    state: usize,
    area: usize,
    initial: usize,
    out: usize,
    to: usize,
) -> Result<Header, Refusal>
    ensures { result ≡ admitted g me f.now state area initial out to }
{
    params_test(g, me, g.n)?;
    let opened = open_frame(g, f);
    // document 01 names this form: the else branch hands back what does not open
    let Ok(h) = opened else {
        return opened;
    };
    if state < SERVER_SIZE {
        return Err(Refusal::Room);
    }
    room_test(g, area, initial, out, to)?;
    Ok(h)
}

// A frame f is handed in by party from: refused by the lowest number, or a step of the server whose record state holds.
pub fn deliver(
    g: Params,
    me: usize,
    from: Party,
    f: &[u8],
    area: &mut [u8],
    initial: &[u8],
    state: &mut [u8],
    out: &mut [u8],
    to: &mut [u8],
) -> Result<usize, Refusal>
    ensures { byte_outcome (reply_response result) area.new state.new out.new to.new
        ≡ byte_delivery digest_of g me from f.now area.old initial.now state.old
        out.old to.old }
{
    let opened = admit(
        g,
        me,
        f,
        state.len(),
        area.len(),
        initial.len(),
        out.len(),
        to.len(),
    );
    match opened {
        Err(r) => Err(r),
        Ok(header) => {
            let k = Call {
                params: g,
                me: me as u8,
                from,
                header,
            };
            step(k, f, area, initial, state, out, to)
        }
    }
}
