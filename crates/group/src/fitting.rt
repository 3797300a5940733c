// A block against its digest in a digest list.
ghost use Rattle.std.specs.Prelude.{◌≡◌, ◌*◌, ◌≤◌, length};
ghost use Rattle.sha256.specs.Hash.{digest_of};
ghost use Rattle.frame.specs.Messages.{entry};
ghost use Rattle.group_rules.specs.Coded.{fits, fit_test};

use frame::Refusal;

// Whether a block has the digest at place j of a digest list.
pub fn block_fits(digests: &[u8], block: &[u8], j: usize) -> bool
    requires { (1 ≤ j) × (32 * j ≤ length digests.now) × (length block.now ≤ 256) }
    ensures { result ≡ fits digest_of (entry digests.now block.now) j }
{
    let own = sha256::digest(block);
    let from = 32 * j - 32;
    let end = from + 32;
    area::equal(&own, &digests[from..end])
}

// Refusal 14: a block against the digest at place j of a digest list.
pub fn fit_test(digests: &[u8], block: &[u8], j: usize) -> Result<(), Refusal>
    requires { (1 ≤ j) × (32 * j ≤ length digests.now) × (length block.now ≤ 256) }
    ensures { result ≡ fit_test digest_of (entry digests.now block.now) j }
{
    if !block_fits(digests, block, j) {
        return Err(Refusal::Digest);
    }
    Ok(())
}
