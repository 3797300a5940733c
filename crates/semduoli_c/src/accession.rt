// The index of accession numbers, which the host keeps as bytes.
ghost use Rattle.std.specs.Prelude.{◌≡◌};
ghost use Rattle.semduoli.specs.Accession.{index_fresh_call, index_insert_call, index_search_call};
ghost use Rattle.semduoli.specs.Calls.{wrote};

// Makes an index empty.
#[unsafe(no_mangle)]
pub extern "C" fn semduoli_index_fresh(index: &mut [u8]) -> u64
    ensures { wrote result index.new ≡ index_fresh_call index.old }
{
    semduoli::accession::semduoli_index_fresh(index)
}

// Inserts a value by its first eight bytes.
#[unsafe(no_mangle)]
pub extern "C" fn semduoli_index_insert(value: &[u8], index: &mut [u8]) -> u64
    ensures { wrote result index.new ≡ index_insert_call value.now index.old }
{
    semduoli::accession::semduoli_index_insert(value, index)
}

// The place of the last inserted value of a number.
#[unsafe(no_mangle)]
pub extern "C" fn semduoli_index_search(number: u64, index: &[u8]) -> u64
    ensures { result ≡ index_search_call number index.now }
{
    semduoli::accession::semduoli_index_search(number, index)
}
