// The value from the blocks of the k lowest servers of a group, and whether all blocks of the group are its blocks.
ghost use Rattle.std.specs.Prelude.{◌≡◌, true, ◌&&◌, ◌+◌, ◌*◌, ◌≤◌, ◌<◌, length, set, ltb};
ghost use Rattle.std.proofs.lemmas.List.Edits.{sets};
ghost use Rattle.area.specs.Area.{pick, same};
ghost use Rattle.blocks.specs.Code.{block_length, block_of};
ghost use Rattle.frame.specs.Params.{width, Bounded};
ghost use Rattle.frame.specs.Chunks.{chunk_at, entry_at, chunk_bytes};
ghost use Rattle.group.specs.Entries.{marked, Within};
ghost use Rattle.group.specs.Choice.{lowest, blocks_in, value_from, all_of};
ghost use Rattle.group.specs.Needs.{Collecting, Decoding, Valued};

use blocks::Params;
use blocks::bounds::block_length;
use blocks::decoder::decode_into;
use blocks::encoder::block_stands;
use frame::entries::block_at;

// The k lowest flagged servers of 1 to n.
fn choose(on: [bool; 11], n: usize, k: usize, numbers: &mut [u8; 8])
    requires { (n ≤ 10) × (k ≤ 8) }
    ensures { numbers.new ≡ sets numbers.old 0 (lowest (marked on) k n) }
{
    let mut c = 0;
    for j in 0..n {
        let mark = on[j + 1];
        if mark && c < k {
            numbers[c] = (j + 1) as u8;
            c += 1;
        }
    }
}

// The block in chunk p of the area, into out from index at on.
fn put_block(area: &[u8], p: usize, g: Params, out: &mut [u8], at: usize)
    requires { Bounded g × (chunk_at p + chunk_bytes ≤ length area.now) × (at + width g ≤ length out.old) }
    ensures { out.new ≡ sets out.old at (entry_at g area.now p).block }
{
    let block = block_at(area, p, g);
    area::put(out, at, block);
}

// The blocks of servers js, of b bytes each, end to end.
fn collect(js: &[u8], at: [usize; 11], area: &[u8], g: Params, b: usize, out: &mut [u8])
    requires { Collecting g js.now at area.now b (length out.old) }
    ensures { out.new ≡ sets out.old 0 (blocks_in g at area.now js.now) }
{
    for i in 0..js.len() {
        let j = js[i] as usize;
        put_block(area, at[j], g, out, i * b);
    }
}

// The value from the blocks of the k lowest flagged servers.
pub fn regain(on: [bool; 11], at: [usize; 11], area: &[u8], g: Params, value: &mut [u8])
    requires { Decoding g on at area.now (length value.old) }
    ensures { value.new ≡ value_from g on at area.now }
{
    let n = g.n;
    let k = g.k;
    let size = g.size;
    let b = block_length(size, k);
    let end = k * b;
    let mut js = [0u8; 8];
    let mut w = [0u8; 264];
    choose(on, n, k, &mut js);
    collect(&js[..k], at, area, g, b, &mut w);
    decode_into(&js[..k], &w[..end], value);
}

// Whether own, a server's block, is block j of the value; so it is where the server is not flagged.
fn is_block(mark: bool, own: &[u8], value: &[u8], k: usize, j: u8) -> bool
    requires { (0 < k) × (k ≤ 8) × (length value.now ≤ 256) × (length own.now ≡ block_length (length value.now) k) }
    ensures { result ≡ pick mark (same own.now (block_of k value.now j)) true }
{
    !mark || block_stands(value, k, j, own, 0)
}

// Whether the blocks of all flagged servers of 1 to n are those of the value.
pub fn all_of(value: &[u8], on: [bool; 11], at: [usize; 11], area: &[u8], g: Params) -> bool
    requires { Valued g value.now × Within at area.now }
    ensures { result ≡ all_of g on at area.now value.now }
{
    let n = g.n;
    let k = g.k;
    for j in 0..n {
        let own = block_at(area, at[j + 1], g);
        if !is_block(on[j + 1], own, value, k, (j + 1) as u8) {
            return false;
        }
    }
    true
}
