// The bounds of a register's parameters.
ghost use Rattle.std.specs.Prelude.{◌≡◌, ◌<◌, ◌≤◌};
ghost use Rattle.blocks.specs.Params.{parties_fit, threshold_fits, length_fits, params_test};
ghost use Rattle.blocks.specs.Code.{block_length};
ghost use Rattle.blocks.specs.Calls.{number_fits, numbers_fit, encode_test, decode_test};

use crate::{Fault, Params};

// Whether n servers can tolerate t false ones: n is 4 to 10, t at least 1, and n > 3t.
pub fn parties_fit(n: usize, t: usize) -> bool
    ensures { result ≡ parties_fit n t }
{
    4 <= n && n <= 10 && 1 <= t && t <= (n - 1) / 3
}

// Whether k is 1 to n - 2t, so that k true blocks can always be had.
pub fn threshold_fits(n: usize, t: usize, k: usize) -> bool
    ensures { result ≡ threshold_fits n t k }
{
    1 <= k && k <= n && t <= (n - k) / 2
}

// Whether a value may have size bytes.
pub fn length_fits(size: usize) -> bool
    ensures { result ≡ length_fits size }
{
    1 <= size && size <= 256
}

// The bounds of all parameters, lowest refusal first.
pub fn params_test(g: Params) -> Result<(), Fault>
    ensures { result ≡ params_test g }
{
    if !parties_fit(g.n, g.t) {
        return Err(Fault::Parties);
    }
    if !threshold_fits(g.n, g.t, g.k) {
        return Err(Fault::Threshold);
    }
    if !length_fits(g.size) {
        return Err(Fault::Length);
    }
    Ok(())
}

// The bytes of a block: size / k, rounded up.
pub fn block_length(size: usize, k: usize) -> usize
    requires { (0 < k) × (k ≤ 8) × (size ≤ 256) }
    ensures { result ≡ block_length size k }
{
    (size + (k - 1)) / k
}

// The tests of `encode`, for a value of len bytes and an area of room bytes.
pub fn encode_test(g: Params, len: usize, room: usize) -> Result<(), Fault>
    ensures { result ≡ encode_test g len room }
{
    params_test(g)?;
    if len != g.size {
        return Err(Fault::Length);
    }
    if room < g.n * block_length(g.size, g.k) {
        return Err(Fault::Room);
    }
    Ok(())
}

// Whether j is 1 to n.
fn number_fits(n: usize, j: u8) -> bool
    ensures { result ≡ number_fits n j }
{
    1 <= j && j as usize <= n
}

// Whether the numbers js are 1 to n and none is repeated.
pub fn numbers_fit(n: usize, js: &[u8]) -> bool
    ensures { result ≡ numbers_fit n js.now }
{
    for (i, j) in js.iter().enumerate() {
        if !number_fits(n, *j) || js[i + 1..].contains(j) {
            return false;
        }
    }
    true
}

// The tests of `decode`, for blocks of len bytes in all and an area of room bytes.
pub fn decode_test(g: Params, numbers: &[u8], len: usize, room: usize) -> Result<(), Fault>
    ensures { result ≡ decode_test g numbers.now len room }
{
    params_test(g)?;
    let m = numbers.len();
    if m < g.k {
        return Err(Fault::Blocks);
    }
    if g.n < m {
        return Err(Fault::Blocks);
    }
    if len != m * block_length(g.size, g.k) {
        return Err(Fault::Blocks);
    }
    if !numbers_fit(g.n, numbers) {
        return Err(Fault::Blocks);
    }
    if room < g.size {
        return Err(Fault::Room);
    }
    Ok(())
}
