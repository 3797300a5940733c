// The digests of a value's blocks, stored, and compared with a digest list.
ghost use Rattle.std.specs.Prelude.{◌≡◌, true, ◌&&◌, ◌+◌, ◌*◌, ◌≤◌, ◌<◌, length};
ghost use Rattle.std.proofs.lemmas.List.Edits.{sets};
ghost use Rattle.area.specs.Area.{pick, same};
ghost use Rattle.blocks.specs.Code.{block_of};
ghost use Rattle.sha256.specs.Hash.{digest_of};
ghost use Rattle.frame.specs.Params.{listed};
ghost use Rattle.frame.specs.Messages.{entry};
ghost use Rattle.group_rules.specs.Coded.{digests_of, fits};
ghost use Rattle.group.specs.Entries.{Within};
ghost use Rattle.group.specs.Choice.{all_of};
ghost use Rattle.group.specs.Needs.{Encoding, Valued};

use crate::fitting::block_fits;
use blocks::Params;
use blocks::bounds::block_length;
use blocks::encoder::encode_block;
use frame::entries::block_at;

// The digest of block j of a value.
fn block_digest(value: &[u8], k: usize, j: u8) -> [u8; 32]
    requires { (1 ≤ k) × (k ≤ 8) × (length value.now ≤ 256) }
    ensures { result ≡ digest_of (block_of k value.now j) }
{
    let b = block_length(value.len(), k);
    let mut block = [0u8; 256];
    encode_block(value, k, j, &mut block, 0);
    sha256::digest(&block[..b])
}

// The digests of the n blocks of a value, end to end, into out from index at on.
pub fn digests(value: &[u8], g: Params, out: &mut [u8], at: usize)
    requires { Encoding g value.now × (at + listed g ≤ length out.old) }
    ensures { out.new ≡ sets out.old at (digests_of digest_of g value.now) }
{
    let n = g.n;
    let k = g.k;
    for j in 0..n {
        let d = block_digest(value, k, (j + 1) as u8);
        area::put(out, at + 32 * j, &d);
    }
}

// Whether block j of a value has its digest in the list, and is own, a server's block, if the server is flagged.
fn agrees_at(value: &[u8], k: usize, j: u8, mark: bool, own: &[u8], list: &[u8]) -> bool
    requires { (1 ≤ k) × (k ≤ 8) × (length value.now ≤ 256) × (1 ≤ j) × (32 * j ≤ length list.now) }
    ensures { result ≡ pick mark (same own.now (block_of k value.now j)) true
        && fits digest_of (entry list.now (block_of k value.now j)) j }
{
    let b = block_length(value.len(), k);
    let mut block = [0u8; 256];
    encode_block(value, k, j, &mut block, 0);
    if !block_fits(list, &block[..b], j as usize) {
        return false;
    }
    if !mark {
        return true;
    }
    area::equal(own, &block[..b])
}

// Whether the digests of the n blocks of a value are the list, and the blocks of all flagged servers those of the value: each block is encoded once.
pub fn agrees(
    value: &[u8],
    list: &[u8],
    on: [bool; 11],
    at: [usize; 11],
    area: &[u8],
    g: Params,
) -> bool
    requires { Valued g value.now × Within at area.now × (length list.now ≡ listed g) }
    ensures { result ≡ all_of g on at area.now value.now && same (digests_of digest_of g value.now) list.now }
{
    let n = g.n;
    let k = g.k;
    for j in 0..n {
        let own = block_at(area, at[j + 1], g);
        if !agrees_at(value, k, (j + 1) as u8, on[j + 1], own, list) {
            return false;
        }
    }
    true
}
