// The end of a read: "Then read-complete goes to all and the value is decoded", from all blocks found (request F-7).
ghost use Rattle.std.specs.Prelude.{◌≡◌, length};
ghost use Rattle.std.proofs.Math.Option.{some};
ghost use Rattle.area.specs.Area.{pick};
ghost use Rattle.sha256.specs.Hash.{digest_of};
ghost use Rattle.frame.specs.Chunks.{entry_at};
ghost use Rattle.group_rules.specs.Coded.{agreeing, decoded};
ghost use Rattle.client_rules.specs.Rows.{at_stamp, found_of};
ghost use Rattle.client_rules.specs.Steps.{complete_by};
ghost use Rattle.client.specs.Stages.{stepped};
ghost use Rattle.client_rules.specs.declared.Answer.TheVariants.{Value, Disagreement};
ghost use Rattle.client_rules.specs.Delivery.{outcome, read_result};
ghost use Rattle.client_search.specs.Search.{view, kept_at, Regaining, Finishing};

use crate::at_stamp::hits;
use crate::searching::holders;
use blocks::Params;
use client::record::in_phase;
use client_rules::{Answer, Answered, Client, Phase, Row};
use frame::send::ask_all;
use frame::{Ask, Place, Stamp};
use group::decoding::{all_of, regain};

// The value of stamp x and the digest list in chunk p, which are in n - t rows, at the start of the result area, if all blocks found there are its blocks;
// whether they are.
fn regain_value(rows: [Row; 11], x: Stamp, p: usize, area: &[u8], g: Params, res: &mut [u8]) -> bool
    requires { Regaining g rows area.now x p (length res.old) }
    ensures { (result ≡ agreeing g (λ j. at_stamp (view g rows area.now j) x) (entry_at g area.now p).digests) ×
        (res.new ≡ read_result (decoded g (λ j. at_stamp (view g rows area.now j) x) (entry_at g area.now p).digests)
        res.old) }
{
    let h = hits(rows, x);
    let k = holders(h, p, area, g);
    let on = k.on;
    let at = k.at;
    let size = g.size;
    let mut value = [0u8; 256];
    regain(on, at, area, g, &mut value[..size]);
    if !all_of(&value[..size], on, at, area, g) {
        return false;
    }
    area::put(res, 0, &value[..size]);
    true
}

// How a read ends at stamp x.
fn read_answer(agree: bool, x: Stamp) -> Answer
    ensures { result ≡ pick agree (Value x) Disagreement }
{
    if agree {
        Answer::Value(x)
    } else {
        Answer::Disagreement
    }
}

// The read ends with what is at place i of server j's row.
pub fn finish(
    s: Client,
    g: Params,
    me: u8,
    j: usize,
    i: usize,
    area: &[u8],
    res: &mut [u8],
    out: &mut [u8],
    to: &mut [u8],
) -> Answered
    requires { Finishing g s.rows area.now j i (length res.old) (length out.old) (length to.old) }
    ensures { outcome result area.now res.new out.new to.new
        ≡ stepped
        (complete_by digest_of g me (some (found_of g (view g s.rows area.now) (kept_at g s.rows area.now j i))) s area.now)
        res.old out.old to.old }
{
    let heard = s.heard;
    let times = s.times;
    let rows = s.rows;
    let r = rows[j];
    let stamps = r.stamps;
    let x = stamps[i];
    let agree = regain_value(rows, x, 4 * j - 4 + i, area, g, res);
    let start = Place { at: 0, count: 0 };
    ask_all(out, to, start, g, Ask::ReadComplete, me, s.reads);
    let client = in_phase(s, Phase::Idle, heard, times);
    let answer = read_answer(agree, x);
    Answered { answer, client }
}
