// Values of an open read: kind 11.
ghost use Rattle.std.specs.Prelude.{◌≡◌, ◌+◌, ◌≤◌, length};
ghost use Rattle.sha256.specs.Hash.{digest_of};
ghost use Rattle.frame.specs.Params.{entry_length};
ghost use Rattle.frame.specs.Messages.{message, value_is, number_in};
ghost use Rattle.frame.specs.Frames.{stamp_in, entry_in, value_at};
ghost use Rattle.client_rules.specs.Tests.{message_test};
ghost use Rattle.client_rules.specs.Steps.{on_value};
ghost use Rattle.client_rules.specs.Delivery.{outcome};
ghost use Rattle.client.specs.Stages.{Lent, stepped, answered};

use crate::tests::entry_test;
use client::Call;
use client::record::with_row;
use client::rows::{place_for, row_with};
use client_rules::{Answer, Answered, Client};
use client_search::settle;
use frame::Stamp;
use frame::entries::keep_entry;
use frame::opener::stamp_in;
use frame::parties::number_in;
use frame::places::VALUE_AT;

// A value from server j with stamp x is kept, if there is a place for it; then the rows are searched.
fn keep(
    s: Client,
    k: Call,
    j: usize,
    x: Stamp,
    f: &[u8],
    area: &mut [u8],
    res: &mut [u8],
    out: &mut [u8],
    to: &mut [u8],
) -> Answered
    requires { Lent k.params (length area.old) (length res.old) (length out.old) (length to.old) × (1 ≤ j) × (j ≤ k.params.n) ×
        (value_at + entry_length k.params ≤ length f.now) }
    ensures { outcome result area.new res.new out.new to.new
        ≡ stepped (on_value digest_of k.params k.me s area.old j x (entry_in k.params f.now value_at))
        res.old out.old to.old }
{
    let row = s.rows[j];
    let Some(i) = place_for(row, x) else {
        return settle(s, k.params, k.me, area, res, out, to);
    };
    keep_entry(area, 4 * j - 4 + i, k.params, f, VALUE_AT);
    let kept = row_with(row, i, x);
    let client = with_row(s, j, kept);
    settle(client, k.params, k.me, area, res, out, to)
}

// Kind 11: a server's value.
pub fn on_value(
    s: Client,
    k: Call,
    f: &[u8],
    area: &mut [u8],
    res: &mut [u8],
    out: &mut [u8],
    to: &mut [u8],
) -> Answered
    requires { Lent k.params (length area.old) (length res.old) (length out.old) (length to.old) ×
        (value_at + entry_length k.params ≤ length f.now) }
    ensures { outcome result area.new res.new out.new to.new
        ≡ answered (message_test digest_of k.params k.me s k.from (message k.header.client k.header.sequence
        (value_is (stamp_in f.now) (entry_in k.params f.now value_at)))) s area.old
        (on_value digest_of k.params k.me s area.old (number_in k.from) (stamp_in f.now)
        (entry_in k.params f.now value_at))
        res.old out.old to.old }
{
    let from = k.from;
    let h = k.header;
    let x = stamp_in(f);
    let v = entry_test(s, k.params, k.me, from, h, x, f);
    if let Err(r) = v {
        return Answered {
            answer: Answer::Refused(r),
            client: s,
        };
    }
    let j = number_in(from) as usize;
    keep(s, k, j, x, f, area, res, out, to)
}
