// What the out area gets for an entry: the answer's number, how many frames were sent, and each of these after its receiver.
ghost use Rattle.std.specs.Prelude.{◌≡◌, ◌+◌, ◌*◌, ◌≤◌, ◌<◌, length, drop};
ghost use Rattle.std.proofs.lemmas.List.Edits.{sets};
ghost use Rattle.server_rules.specs.Delivery.{reply_response, reply_number, reply_count};
ghost use Rattle.playback.specs.Stages.{sent_in, Lie, report_in};

use frame::Refusal;
use frame::refusals::number_of;

// 0 for a step, else the refusal's number.
fn reply_number(a: Result<usize, Refusal>) -> u8
    ensures { result ≡ reply_number (reply_response a) }
{
    match a {
        Ok(_) => 0,
        Err(r) => number_of(r),
    }
}

// How many frames were sent.
fn reply_count(a: Result<usize, Refusal>) -> usize
    ensures { result ≡ reply_count (reply_response a) }
{
    match a {
        Ok(m) => m,
        Err(_) => 0,
    }
}

// The frames that are left lie end to end from index from on. They move up to index at on, each after its receiver: the last first, so that none is
// written over before it has moved. Receiver i, which lies in to, is the first one's. The answer is where they end.
// No `for`: where the last frame lies is known only once those before it are passed.
fn spread(out: &mut [u8], from: usize, at: usize, to: &[u8], i: usize, left: usize) -> usize
    requires { (from ≤ at) × (from ≤ length out.old) × Lie left (drop from out.old) × (2 * (i + left) ≤ length to.now)
        × (at + length (sent_in left (drop from out.old) (drop (2 * i) to.now)) ≤ length out.old) }
    ensures { (out.new ≡ sets out.old at (sent_in left (drop from out.old) (drop (2 * i) to.now)))
        × (result ≡ at + length (sent_in left (drop from out.old) (drop (2 * i) to.now))) }
{
    if left == 0 {
        return at;
    }
    let size = 2 + area::read2(out, from) as usize;
    let end = spread(out, from + size, at + 2 + size, to, i + 1, left - 1);
    out.copy_within(from..from + size, at + 2);
    let k = 2 * i;
    area::put(out, at, &to[k..k + 2]);
    end
}

// The bytes of a report before its frames: the answer's number, and how many frames were sent.
pub const REPORT_HEAD: usize = 3;

// The report of a reply, whose frames lie in out after the place of its head, and its receivers in to. The answer is where it ends.
pub fn put_report(a: Result<usize, Refusal>, to: &[u8], out: &mut [u8], at: usize) -> usize
    requires { (at + 3 ≤ length out.old) × Lie (reply_count (reply_response a)) (drop (at + 3) out.old)
        × (2 * reply_count (reply_response a) ≤ length to.now) × (reply_count (reply_response a) < 65536)
        × (at + length (report_in (reply_response a) (drop (at + 3) out.old) to.now) ≤ length out.old) }
    ensures { (out.new ≡ sets out.old at (report_in (reply_response a) (drop (at + 3) out.old) to.now))
        × (result ≡ at + length (report_in (reply_response a) (drop (at + 3) out.old) to.now)) }
{
    let m = reply_count(a);
    let end = spread(out, at + REPORT_HEAD, at + REPORT_HEAD, to, 0, m);
    out[at] = reply_number(a);
    area::write2(out, at + 1, m as u16);
    end
}
