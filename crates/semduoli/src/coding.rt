// Digests and the block code.
ghost use Rattle.std.specs.Prelude.{◌≡◌};
ghost use Rattle.semduoli.specs.Calls.{params, wrote, digest_call, encode_call, decode_call};

use blocks::Params;
use blocks::answers::code_answer;

// The SHA-256 digest of at most 256 bytes, into the first 32 bytes of out.
pub fn semduoli_digest(message: &[u8], out: &mut [u8]) -> u64
    ensures { wrote result out.new ≡ digest_call message.now out.old }
{
    if 256 < message.len() {
        return 3;
    }
    if out.len() < 32 {
        return 10;
    }
    area::put(out, 0, &sha256::digest(message));
    0
}

// The n blocks of a value of size bytes, end to end in the front of out.
pub fn semduoli_encode(
    n: usize,
    t: usize,
    k: usize,
    size: usize,
    value: &[u8],
    out: &mut [u8],
) -> u64
    ensures { wrote result out.new ≡ encode_call (params n t k size) value.now out.old }
{
    let g = Params { n, t, k, size };
    code_answer(blocks::encode(g, value, out))
}

// Decodes k to n blocks, which lie end to end in blocks: the value that has them all goes to the front of out; refusal 21 if there is none.
pub fn semduoli_decode(
    n: usize,
    t: usize,
    k: usize,
    size: usize,
    numbers: &[u8],
    blocks: &[u8],
    out: &mut [u8],
) -> u64
    ensures { wrote result out.new ≡ decode_call (params n t k size) numbers.now blocks.now out.old }
{
    let g = Params { n, t, k, size };
    code_answer(blocks::decode(g, numbers, blocks, out))
}
