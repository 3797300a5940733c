// A fresh server, its record being lent as bytes.
ghost use Rattle.std.specs.Prelude.{◌≡◌, ◌≤◌, length};
ghost use Rattle.sha256.specs.Hash.{digest_of};
ghost use Rattle.server_rules.specs.Delivery.{reply_response};
ghost use Rattle.layout.specs.Servers.{server_size};
ghost use Rattle.server_deliver.specs.Handed.{fresh_test};
ghost use Rattle.server_deliver.specs.Records.{fresh_after, byte_constructed, byte_construction};

use blocks::Params;
use frame::Refusal;
use frame::bounds::params_test;
use layout::servers::{SERVER_SIZE, put_server};
use server::setup::construct;
use server_rules::Server;

// Refusals 1 to 3, and 10 of the record's area; the initial value has length len.
pub fn fresh_test(g: Params, me: usize, len: usize, state: usize) -> Result<(), Refusal>
    ensures { result ≡ fresh_test g me len state }
{
    params_test(g, me, g.n)?;
    if len != g.size {
        return Err(Refusal::Length);
    }
    if state < SERVER_SIZE {
        return Err(Refusal::Room);
    }
    Ok(())
}

// Writes a fresh record, unless the call was turned down.
#[tactic(auto, unfolding(crate::specs::Records::fresh_after, layout::specs::Left::left_by, area::specs::Responses::is_turned_down, area::specs::Area::pick))]
fn keep_fresh(a: Result<usize, Refusal>, s: Server, state: &mut [u8])
    requires { server_size ≤ length state.old }
    ensures { state.new ≡ fresh_after (reply_response a) s state.old }
{
    if a.is_err() {
        return;
    }
    put_server(s, state, 0);
}

// Makes server me afresh: its record goes to state, the digest list of the initial value to the area, and its block of that value to initial.
pub fn fresh(
    g: Params,
    me: usize,
    value: &[u8],
    area: &mut [u8],
    initial: &mut [u8],
    state: &mut [u8],
) -> Result<usize, Refusal>
    ensures { byte_constructed (reply_response result) area.new initial.new state.new
        ≡ byte_construction digest_of g me value.now area.old initial.old state.old }
{
    fresh_test(g, me, value.len(), state.len())?;
    let done = construct(g, me as u8, value, area, initial);
    keep_fresh(done.reply, done.server, state);
    done.reply
}
