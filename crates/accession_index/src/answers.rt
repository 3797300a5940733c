// The answers of an insertion and of a search to a host, each as one number.
ghost use Rattle.std.specs.Prelude.{◌≡◌};
ghost use Rattle.accession_index.specs.Index.{insertion_response, found_place};
ghost use Rattle.accession_index.specs.Answers.{insertion_answer, search_answer};

use crate::{Refusal, number_of};

pub fn insertion_answer(a: Result<u8, Refusal>) -> u64
    ensures { result ≡ insertion_answer (insertion_response a) }
{
    match a {
        Ok(p) => 65536 * u64::from(p),
        Err(r) => number_of(r),
    }
}

pub fn search_answer(f: Option<u8>) -> u64
    ensures { result ≡ search_answer (found_place f) }
{
    match f {
        Some(p) => 65536 * u64::from(p),
        None => 0,
    }
}
