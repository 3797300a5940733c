// A client's answer to a host, as one number.
ghost use Rattle.std.specs.Prelude.{◌≡◌};
ghost use Rattle.area.specs.Responses.{is_turned_down};
ghost use Rattle.client_rules.specs.Answers.{answer_response};
ghost use Rattle.site.specs.Answers.{test_answer, client_answer, open_answer};

use client_rules::{Answer, Phase};
use frame::Refusal;
use frame::refusals::number_of;

pub fn test_answer(v: Result<(), Refusal>) -> u64
    ensures { result ≡ test_answer v }
{
    match v {
        Ok(()) => 0,
        Err(r) => number_of(r) as u64,
    }
}

// Whether a client's call was turned down.
pub fn is_refusal(a: Answer) -> bool
    ensures { result ≡ is_turned_down (answer_response a) }
{
    match a {
        Answer::Sent(m) => false,
        Answer::Written => false,
        Answer::OutOfStamps => false,
        Answer::Value(x) => false,
        Answer::Disagreement => false,
        Answer::Refused(r) => true,
    }
}

// A client's answer, where there are n servers: a number, for hosts in C.
pub fn client_answer(a: Answer, n: usize) -> u64
    ensures { result ≡ client_answer n (answer_response a) }
{
    match a {
        Answer::Sent(m) => 65536 * (m as u64 % 65536),
        Answer::Written => 256,
        Answer::OutOfStamps => 512,
        Answer::Value(x) => 768 + 65536 * (n as u64 % 65536),
        Answer::Disagreement => 1024 + 65536 * (n as u64 % 65536),
        Answer::Refused(r) => number_of(r) as u64,
    }
}

// Which operation is open at a client in phase p; writes and reads are how many it has begun.
pub fn open_answer(p: Phase, writes: u32, reads: u32) -> u64
    ensures { result ≡ open_answer p writes reads }
{
    match p {
        Phase::Idle => 0,
        Phase::Asking => 256 + 65536 * writes as u64,
        Phase::Acking => 512 + 65536 * writes as u64,
        Phase::Reading => 768 + 65536 * reads as u64,
    }
}
