// Stamps and acks of an open write, and reports: kinds 2, 9 and 13.
ghost use Rattle.std.specs.Prelude.{◌≡◌, true, List, ℕ, ◌≤◌, length};
ghost use Rattle.area.specs.Numbers.{be8};
ghost use Rattle.sha256.specs.Hash.{digest_of};
ghost use Rattle.frame.specs.Params.{Bounded, largest_frame};
ghost use Rattle.frame.specs.Messages.{message, stamp_is, ack, report, number_in};
ghost use Rattle.frame.specs.Frames.{body_at, offer_at};
ghost use Rattle.frame.specs.Outbox.{first_place, Room};
ghost use Rattle.client_rules.specs.Tests.{message_test};
ghost use Rattle.client_rules.specs.Steps as S;
ghost use Rattle.client_rules.specs.Steps.{gather_by, on_stamp, on_report, on_ack};
ghost use Rattle.client_rules.specs.Delivery.{outcome};
ghost use Rattle.client.specs.Stages.{stepped, answered};
ghost use Rattle.client_deliver.specs.Needs.{Stamping};

use crate::dispersal::{Dispersal, disperse};
use crate::tests::{reply_test, report_test};
use blocks::Params;
use client::Call;
use client::counts::{is_gathered, is_quorate, largest_counted};
use client::phases::{is_acking, is_asking};
use client::record::{in_phase, shut, with_report};
use client_rules::{Answer, Answered, Client, Phase};
use frame::WriteTime;
use frame::parties::number_in;
use frame::places::{BODY_AT, LAST_TIME};

// "the largest counted time is taken": it goes out with the blocks, or the write closes as out of stamps.
fn send_largest(
    s: Client,
    g: Params,
    me: u8,
    value: &[u8],
    out: &mut [u8],
    to: &mut [u8],
) -> Answered
    requires { Bounded g × (length value.now ≡ g.size) × Room first_place g.n (largest_frame g) (length out.old) (length to.old) }
    ensures { (a l : List ℕ) → outcome result a l out.new to.new
        ≡ stepped (gather_by digest_of g me true s a value.now) l out.old to.old }
{
    let times = s.times;
    let time = largest_counted(s, g);
    if LAST_TIME <= time {
        let client = shut(s);
        return Answered {
            answer: Answer::OutOfStamps,
            client,
        };
    }
    let write = WriteTime {
        client: me,
        sequence: s.writes,
        time,
    };
    let d = Dispersal { params: g, write };
    let p = disperse(value, d, out, to);
    let heard = [false; 11];
    let client = in_phase(s, Phase::Acking, heard, times);
    Answered {
        answer: Answer::Sent(p.count),
        client,
    }
}

// "One report may lift the count past n - t": then the write goes on.
fn gather(s: Client, g: Params, me: u8, value: &[u8], out: &mut [u8], to: &mut [u8]) -> Answered
    requires { Bounded g × (length value.now ≡ g.size) × Room first_place g.n (largest_frame g) (length out.old) (length to.old) }
    ensures { (a l : List ℕ) → outcome result a l out.new to.new
        ≡ stepped (S.gather digest_of g me s a value.now) l out.old to.old }
{
    if !is_gathered(s, g) {
        return Answered {
            answer: Answer::Sent(0),
            client: s,
        };
    }
    send_largest(s, g, me, value, out, to)
}

// Kind 2: a server's stamp, which is a report, too.
pub fn on_stamp(
    s: Client,
    k: Call,
    value: &[u8],
    f: &[u8],
    out: &mut [u8],
    to: &mut [u8],
) -> Answered
    requires { Stamping k.params s (length value.now) (length out.old) (length to.old) × (offer_at ≤ length f.now) }
    ensures { (a l : List ℕ) → outcome result a l out.new to.new
        ≡ answered (message_test digest_of k.params k.me s k.from (message k.header.client k.header.sequence
        (stamp_is (be8 f.now body_at)))) s a
        (on_stamp digest_of k.params k.me s a value.now (number_in k.from) (be8 f.now body_at)) l
        out.old to.old }
{
    let from = k.from;
    let h = k.header;
    let p = s.phase;
    let mut heard = s.heard;
    let mut times = s.times;
    let v = reply_test(k.params, k.me, from, h, is_asking(p), s.writes, heard);
    if let Err(r) = v {
        return Answered {
            answer: Answer::Refused(r),
            client: s,
        };
    }
    let j = number_in(from) as usize;
    let time = area::read8(f, BODY_AT);
    heard[j] = true;
    times[j] = time;
    let reported = with_report(s, j, time);
    let client = in_phase(reported, Phase::Asking, heard, times);
    gather(client, k.params, k.me, value, out, to)
}

// Kind 13: a server's report; in the first part of a write others may count now.
pub fn on_report(
    s: Client,
    k: Call,
    value: &[u8],
    f: &[u8],
    out: &mut [u8],
    to: &mut [u8],
) -> Answered
    requires { Stamping k.params s (length value.now) (length out.old) (length to.old) × (offer_at ≤ length f.now) }
    ensures { (a l : List ℕ) → outcome result a l out.new to.new
        ≡ answered (message_test digest_of k.params k.me s k.from (message k.header.client k.header.sequence
        (report (be8 f.now body_at)))) s a
        (on_report digest_of k.params k.me s a value.now (number_in k.from) (be8 f.now body_at)) l
        out.old to.old }
{
    let from = k.from;
    let p = s.phase;
    let reports = s.reports;
    let time = area::read8(f, BODY_AT);
    let v = report_test(k.params, from, time, reports);
    if let Err(r) = v {
        return Answered {
            answer: Answer::Refused(r),
            client: s,
        };
    }
    let j = number_in(from) as usize;
    let client = with_report(s, j, time);
    if !is_asking(p) {
        return Answered {
            answer: Answer::Sent(0),
            client,
        };
    }
    gather(client, k.params, k.me, value, out, to)
}

// Kind 9: a server's ack.
pub fn on_ack(s: Client, k: Call) -> Answered
    requires { Bounded k.params }
    ensures { (a l o t : List ℕ) → outcome result a l o t
        ≡ answered (message_test digest_of k.params k.me s k.from (message k.header.client k.header.sequence ack)) s a
        (on_ack digest_of k.params k.me s a (number_in k.from)) l o t }
{
    let from = k.from;
    let h = k.header;
    let p = s.phase;
    let mut heard = s.heard;
    let times = s.times;
    let v = reply_test(k.params, k.me, from, h, is_acking(p), s.writes, heard);
    if let Err(r) = v {
        return Answered {
            answer: Answer::Refused(r),
            client: s,
        };
    }
    let j = number_in(from) as usize;
    heard[j] = true;
    if !is_quorate(k.params, heard) {
        let client = in_phase(s, Phase::Acking, heard, times);
        return Answered {
            answer: Answer::Sent(0),
            client,
        };
    }
    let client = in_phase(s, Phase::Idle, heard, times);
    Answered {
        answer: Answer::Written,
        client,
    }
}
