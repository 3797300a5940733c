// A server's answer, as the number that a host gets.
ghost use Rattle.std.specs.Prelude.{◌≡◌};
ghost use Rattle.server_rules.specs.Delivery.{reply_response};
ghost use Rattle.server_deliver.specs.Answers.{server_answer};

use frame::Refusal;
use frame::refusals::number_of;

pub fn server_answer(a: Result<usize, Refusal>) -> u64
    ensures { result ≡ server_answer (reply_response a) }
{
    match a {
        Ok(m) => 65536 * (m as u64 % 65536),
        Err(r) => number_of(r) as u64,
    }
}
