// The index of accession numbers, which the host keeps as bytes.
ghost use Rattle.std.specs.Prelude.{◌≡◌};
ghost use Rattle.semduoli.specs.Accession.{index_fresh_call, index_insert_call, index_search_call};
ghost use Rattle.semduoli.specs.Calls.{wrote};

use accession_index::answers::{insertion_answer, search_answer};

// Makes an index empty.
pub fn semduoli_index_fresh(index: &mut [u8]) -> u64
    ensures { wrote result index.new ≡ index_fresh_call index.old }
{
    if index.len() < 577 {
        return 10;
    }
    index[0] = 0;
    0
}

// Inserts a value by its first eight bytes.
pub fn semduoli_index_insert(value: &[u8], index: &mut [u8]) -> u64
    ensures { wrote result index.new ≡ index_insert_call value.now index.old }
{
    if index.len() < 577 {
        return 10;
    }
    insertion_answer(accession_bytes::insert(index, value))
}

// The place of the last inserted value of a number.
pub fn semduoli_index_search(number: u64, index: &[u8]) -> u64
    ensures { result ≡ index_search_call number index.now }
{
    if index.len() < 577 {
        return 10;
    }
    search_answer(accession_bytes::search(index, number))
}
