// The block code of document 01: a value as n blocks, any k of which give it back. This crate ships by itself to partners who only decode.
#![tactic(auto)]

ghost use Rattle.std.specs.Prelude.{◌≡◌};
ghost use Rattle.blocks.specs.Calls.{outcome, encoding, decoding};

use decoder::decode_all;
use encoder::encode_blocks;

pub mod answers;
pub mod bounds;
pub mod decoder;
pub mod encoder;
pub mod faults;
pub mod polynomial;

// A register's parameters: n servers, of which at most t are false; a value of size bytes (L in document 01) is decoded from k blocks.
#[derive(Clone, Copy)]
pub struct Params {
    pub n: usize,
    pub t: usize,
    pub k: usize,
    pub size: usize,
}

// Why a call is turned down. `number_of` gives document 01's number.
#[derive(Clone, Copy, PartialEq, Eq, Debug)]
pub enum Fault {
    Parties = 1,
    Threshold = 2,
    Length = 3,
    Blocks = 9,
    Room = 10,
    Disagreement = 21,
}

// The n blocks of a value, end to end in the front of out.
pub fn encode(g: Params, value: &[u8], out: &mut [u8]) -> Result<(), Fault>
    ensures { outcome result out.new ≡ encoding g value.now out.old }
{
    bounds::encode_test(g, value.len(), out.len())?;
    encode_blocks(value, g.n, g.k, out);
    Ok(())
}

// Decodes k to n blocks, which lie end to end in blocks: if they are all blocks of one value, that value goes to the front of out.
pub fn decode(g: Params, numbers: &[u8], blocks: &[u8], out: &mut [u8]) -> Result<(), Fault>
    ensures { outcome result out.new ≡ decoding g numbers.now blocks.now out.old }
{
    bounds::decode_test(g, numbers, blocks.len(), out.len())?;
    let mut value = [0u8; 256];
    if !decode_all(numbers, blocks, g.k, &mut value[..g.size]) {
        return Err(Fault::Disagreement);
    }
    area::put(out, 0, &value[..g.size]);
    Ok(())
}
