// The second stage of a step: what can be accepted is, by rising client number, from the lowest again after each.
ghost use Rattle.std.specs.Prelude.{◌+◌, ◌*◌, ◌≤◌, ◌≡◌, true, length};
ghost use Rattle.frame.specs.Params.{Bounded};
ghost use Rattle.frame.specs.Outbox.{outbox};
ghost use Rattle.server.specs.Stages.{Lent};
ghost use Rattle.server_accept.specs.Telling.{may_accept, lowest_from};
ghost use Rattle.layout.specs.Servers.{server_size, server_in};
ghost use Rattle.server_deliver.specs.Rounds.{RoundsRoom, settled, accepted_in, freed_in};

use blocks::Params;
use frame::Place;
use layout::servers::{
    READERS_AT, complete_at, own_time, put_opened, readers_at, reports_at, scope_at, sequence_at,
    time_at,
};
use server_accept::{accept, is_ripe};
use server_rules::Server;

// Whether client c's open write can be accepted. Most often none is complete: then one byte is read.
fn may_accept(state: &[u8], g: Params, c: usize) -> bool
    requires { Bounded g × (server_size ≤ length state.now) × (c ≤ 8) }
    ensures { result ≡ may_accept g (server_in state.now) c }
{
    if !complete_at(state, c) {
        return false;
    }
    let time = time_at(state, c);
    let sequence = sequence_at(state, c);
    let own = own_time(state);
    let reports = reports_at(state);
    is_ripe(time, sequence, own, reports, g)
}

// The lowest client whose write can be accepted, or 0, as the definition `lowest_from` has it.
fn lowest(state: &[u8], g: Params) -> usize
    requires { Bounded g × (server_size ≤ length state.now) }
    ensures { result ≡ lowest_from g (server_in state.now) 1 8 }
{
    for c in 1..Server::PLACES {
        if may_accept(state, g, c) {
            return c;
        }
    }
    0
}

// The write of client c is accepted, in that client's scope.
fn accept_at(
    c: usize,
    g: Params,
    state: &mut [u8],
    area: &mut [u8],
    out: &mut [u8],
    to: &mut [u8],
    p: Place,
) -> Place
    requires { Lent g c (length area.old) p (g.n + 17) (length out.old) (length to.old) × (server_size ≤ length state.old)
        × (may_accept g (server_in state.old) c ≡ true) }
    ensures { settled state.new area.new (outbox out.new to.new result)
        ≡ accepted_in g c state.old area.old (outbox out.old to.old p) }
{
    let s = scope_at(state, c);
    let readers = readers_at(state, READERS_AT);
    let m = accept(s, readers, g, c as u8, area, out, to, p);
    put_opened(m.scope.stamp, m.scope.slot, c, state);
    m.place
}

// At most so many acceptances.
pub fn settle(
    rounds: usize,
    g: Params,
    state: &mut [u8],
    area: &mut [u8],
    out: &mut [u8],
    to: &mut [u8],
    p: Place,
) -> Place
    requires { RoundsRoom rounds g (length state.old) (length area.old) p (length out.old) (length to.old) }
    ensures { settled state.new area.new (outbox out.new to.new result)
        ≡ freed_in g rounds state.old area.old (outbox out.old to.old p) }
{
    let mut q = p;
    for _ in 0..rounds {
        let c = lowest(state, g);
        if c == 0 {
            return q;
        }
        q = accept_at(c, g, state, area, out, to, q);
    }
    q
}
