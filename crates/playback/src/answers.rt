// A playback's answer to a host, as one number.
ghost use Rattle.std.specs.Prelude.{◌≡◌};
ghost use Rattle.playback.specs.Playback.{summed, playback_response};
ghost use Rattle.playback.specs.Answers.{summary_answer, playback_answer};

use crate::{Ending, Summary};
use frame::Refusal;
use frame::refusals::number_of;

// How the trace closed, 22 or 23, in the second byte.
const MALFORMED: u64 = 256 * 22;

const CUT: u64 = 256 * 23;

// How the trace closed, and from the fourth byte on how many entries were played.
fn summary_answer(x: Summary) -> u64
    ensures { result ≡ summary_answer (summed x) }
{
    let ending = x.ending;
    let entries = x.entries as u64 % 1099511627776;
    match ending {
        Ending::Whole => 16777216 * entries,
        Ending::Malformed(_) => MALFORMED + 16777216 * entries,
        Ending::Cut(_) => CUT + 16777216 * entries,
    }
}

pub fn playback_answer(a: Result<Summary, Refusal>) -> u64
    ensures { result ≡ playback_answer (playback_response a) }
{
    match a {
        Ok(x) => summary_answer(x),
        Err(r) => number_of(r) as u64,
    }
}
