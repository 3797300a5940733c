// From a value to its blocks. A value v and its k stay two parameters: each caller has them apart (an area, and `Params`), and a type made for one call
// would be no plainer.
ghost use Rattle.std.specs.Prelude.{◌≡◌, ◌+◌, ◌*◌, ◌<◌, ◌≤◌, length, drop};
ghost use Rattle.std.proofs.lemmas.List.Edits.{sets};
ghost use Rattle.blocks.specs.Code.{block_length, block_byte, block_of, encoded, blocks_of};
ghost use Rattle.area.specs.Area.{part, same};

use crate::bounds::block_length;
use crate::polynomial::value_at;

// The value at x of the polynomial of stripe r of v. Zeros after the last coefficient change nothing, so no padding is stored.
fn stripe_value(v: &[u8], k: usize, r: usize, x: u8) -> u8
    requires { (0 < k) × (k ≤ 8) × (length v.now ≤ 256) × (r < block_length (length v.now) k) }
    ensures { result ≡ block_byte k v.now x r }
{
    let start = r * k;
    let end = v.len().min(start + k);
    value_at(&v[start..end], x)
}

// Block j of the value v into out, from index at on.
pub fn encode_block(v: &[u8], k: usize, j: u8, out: &mut [u8], at: usize)
    requires { (0 < k) × (k ≤ 8) × (length v.now ≤ 256) × (at + block_length (length v.now) k ≤ length out.old) }
    ensures { out.new ≡ sets out.old at (block_of k v.now j) }
{
    let b = block_length(v.len(), k);
    for r in 0..b {
        out[at + r] = stripe_value(v, k, r, j);
    }
}

// Blocks 1 to n of the value v into the front of out.
pub fn encode_blocks(v: &[u8], n: usize, k: usize, out: &mut [u8])
    requires { (0 < k) × (k ≤ 8) × (n ≤ 10) × (length v.now ≤ 256) × (n * block_length (length v.now) k ≤ length out.old) }
    ensures { out.new ≡ sets out.old 0 (encoded n k v.now) }
{
    let b = block_length(v.len(), k);
    for i in 0..n {
        let j = (i + 1) as u8;
        encode_block(v, k, j, out, i * b);
    }
}

// Whether w has block j of the value v from index at on.
pub fn block_stands(v: &[u8], k: usize, j: u8, w: &[u8], at: usize) -> bool
    requires { (0 < k) × (k ≤ 8) × (length v.now ≤ 256) × (at + block_length (length v.now) k ≤ length w.now) }
    ensures { result ≡ same (part w.now at (block_length (length v.now) k)) (block_of k v.now j) }
{
    let b = block_length(v.len(), k);
    let mut block = [0u8; 256];
    encode_block(v, k, j, &mut block, 0);
    area::equal_at(w, at, &block[..b])
}

// Whether w holds the blocks of the value v with the numbers js, end to end.
pub fn blocks_stand(v: &[u8], k: usize, js: &[u8], w: &[u8]) -> bool
    requires { (0 < k) × (k ≤ 8) × (length v.now ≤ 256) × (length js.now ≤ 10) × (length w.now ≡ length js.now * block_length (length v.now) k) }
    ensures { result ≡ same (blocks_of k v.now js.now) w.now }
{
    let b = block_length(v.len(), k);
    for i in 0..js.len() {
        if !block_stands(v, k, js[i], w, i * b) {
            return false;
        }
    }
    true
}
