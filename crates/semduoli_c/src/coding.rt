// Digests and the block code.
ghost use Rattle.std.specs.Prelude.{◌≡◌};
ghost use Rattle.semduoli.specs.Calls.{params, wrote, digest_call, encode_call, decode_call};

// The SHA-256 digest of at most 256 bytes, into the first 32 bytes of out.
#[unsafe(no_mangle)]
pub extern "C" fn semduoli_digest(message: &[u8], out: &mut [u8]) -> u64
    ensures { wrote result out.new ≡ digest_call message.now out.old }
{
    semduoli::coding::semduoli_digest(message, out)
}

// The n blocks of a value of size bytes, end to end in the front of out.
#[unsafe(no_mangle)]
pub extern "C" fn semduoli_encode(
    n: usize,
    t: usize,
    k: usize,
    size: usize,
    value: &[u8],
    out: &mut [u8],
) -> u64
    ensures { wrote result out.new ≡ encode_call (params n t k size) value.now out.old }
{
    semduoli::coding::semduoli_encode(n, t, k, size, value, out)
}

// Decodes k to n blocks, which lie end to end in blocks: the value that has them all goes to the front of out; refusal 21 if there is none.
#[unsafe(no_mangle)]
pub extern "C" fn semduoli_decode(
    n: usize,
    t: usize,
    k: usize,
    size: usize,
    numbers: &[u8],
    blocks: &[u8],
    out: &mut [u8],
) -> u64
    ensures { wrote result out.new ≡ decode_call (params n t k size) numbers.now blocks.now out.old }
{
    semduoli::coding::semduoli_decode(n, t, k, size, numbers, blocks, out)
}
