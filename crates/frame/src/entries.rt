// Entries, a digest list and a block each, in the chunks of a lent area.
ghost use Rattle.std.specs.Prelude.{◌≡◌, ◌+◌, ◌*◌, ◌≤◌, length};
ghost use Rattle.frame.specs.Params.{Bounded, entry_length};
ghost use Rattle.frame.specs.Messages.{entry};
ghost use Rattle.frame.specs.Frames.{entry_in};
ghost use Rattle.frame.specs.Chunks.{entry_at, store_entry};

use crate::bounds::width;
use crate::places::{BLOCK_AT, CHUNK_BYTES};
use blocks::Params;

// Stores an entry in chunk p.
pub fn put_entry(area: &mut [u8], p: usize, digests: &[u8], block: &[u8])
    requires { (576 * p + 576 ≤ length area.old) × (length digests.now ≤ 320) × (length block.now ≤ 256) }
    ensures { area.new ≡ store_entry area.old p (entry digests.now block.now) }
{
    area::put(area, CHUNK_BYTES * p, digests);
    area::put(area, CHUNK_BYTES * p + BLOCK_AT, block);
}

// Stores the entry that a frame has from index i on in chunk p.
pub fn keep_entry(area: &mut [u8], p: usize, g: Params, f: &[u8], i: usize)
    requires { Bounded g × (576 * p + 576 ≤ length area.old) × (i + entry_length g ≤ length f.now) }
    ensures { area.new ≡ store_entry area.old p (entry_in g f.now i) }
{
    let middle = i + 32 * g.n;
    let end = middle + width(g);
    put_entry(area, p, &f[i..middle], &f[middle..end]);
}

// The digest list of chunk p.
pub fn digests_at(area: &[u8], p: usize, g: Params) -> &[u8]
    requires { Bounded g × (576 * p + 576 ≤ length area.now) }
    ensures { result.now ≡ (entry_at g area.now p).digests }
{
    let from = CHUNK_BYTES * p;
    let end = from + 32 * g.n;
    &area[from..end]
}

// The block of chunk p.
pub fn block_at(area: &[u8], p: usize, g: Params) -> &[u8]
    requires { Bounded g × (576 * p + 576 ≤ length area.now) }
    ensures { result.now ≡ (entry_at g area.now p).block }
{
    let from = CHUNK_BYTES * p + BLOCK_AT;
    let end = from + width(g);
    &area[from..end]
}
