// From k blocks to the value.
ghost use Rattle.std.specs.Prelude.{◌≡◌, ◌+◌, ◌-◌, ◌*◌, ◌<◌, ◌≤◌, length, take, replicate};
ghost use Rattle.std.proofs.lemmas.List.Edits.{sets};
ghost use Rattle.blocks.specs.Poly.{through, basis, Basis};
ghost use Rattle.blocks.specs.Code.{block_length, row, value_of, candidate, agree};

use crate::bounds::block_length;
use crate::encoder::blocks_stand;
use crate::polynomial::{add_scaled, interpolate};

// The polynomial that is 1 at number i of js and 0 at the others, into row i of the table, whose rows have as many bytes as there are numbers.
fn put_unit(js: &[u8], i: usize, table: &mut [u8])
    requires { (length js.now ≤ 8) × (i < length js.now) × (i * length js.now + length js.now ≤ length table.old) }
    ensures { table.new ≡ sets table.old (i * length js.now) (basis js.now i) }
{
    let k = js.len();
    let n = k + 1;
    let at = i * k;
    let mut ys = [0u8; 8];
    let mut m = [0u8; 9];
    ys[i] = 1;
    interpolate(js, &ys[..k], &mut table[at..at + k], &mut m[..n]);
}

// The polynomials that are 1 at one of the numbers js and 0 at the others, as rows of the table.
fn put_basis(js: &[u8], table: &mut [u8])
    requires { (length js.now ≤ 8) × (length js.now * length js.now ≤ length table.old) }
    ensures { Basis js.now table.new }
{
    for i in 0..js.len() {
        put_unit(js, i, table);
    }
}

// The numbers of the blocks that are decoded, and the polynomials that are 1 at one of them and 0 at the others, as rows.
// The numbers are the same for all stripes, so the rows are computed once.
#[derive(Drop)]
struct Decoder<'a> {
    numbers: &'a [u8],
    rows: [u8; 64],
    ghost few: { length numbers.now ≤ 8 },
    ghost basis: { Basis numbers.now rows },
}

impl<'a> Decoder<'a> {
    fn new(js: &'a [u8]) -> Decoder<'a>
        requires { length js.now ≤ 8 }
        ensures { result.numbers.now ≡ js.now }
    {
        let mut rows = [0u8; 64];
        put_basis(js, &mut rows);
        Decoder { numbers: js, rows }
    }

    // The coefficients of stripe r, from blocks of b bytes that lie end to end in w, into p, which holds zeros: the sum of the rows,
    // each times byte r of its block.
    fn combine(&self, w: &[u8], b: usize, r: usize, p: &mut [u8])
        requires { (b ≤ 256) × (r < b) × (length w.now ≡ length self.now.numbers.now * b) × (p.old ≡ replicate (length self.now.numbers.now) 0) }
        ensures { p.new ≡ through self.now.numbers.now (row (length self.now.numbers.now) b w.now r) }
    {
        let k = self.numbers.len();
        for i in 0..k {
            let at = i * k;
            let end = at + k;
            add_scaled(p, &self.rows[at..end], w[i * b + r]);
        }
    }

    // Stripe r of a value into its place; its padding is left out.
    fn put_stripe(&self, w: &[u8], b: usize, r: usize, value: &mut [u8])
        requires { (b ≤ 256) × (r < b) × (length w.now ≡ length self.now.numbers.now * b)
            × (r * length self.now.numbers.now ≤ length value.old) × (length value.old ≤ 256) }
        ensures { value.new
            ≡ sets value.old (r * length self.now.numbers.now)
            (take (length value.old - r * length self.now.numbers.now)
            (through self.now.numbers.now (row (length self.now.numbers.now) b w.now r))) }
    {
        let k = self.numbers.len();
        let start = r * k;
        let mut p = [0u8; 8];
        self.combine(w, b, r, &mut p[..k]);
        let n = k.min(value.len() - start);
        area::put(value, start, &p[..n]);
    }
}

// The value from the blocks with the numbers js, which lie end to end in w.
pub fn decode_into(js: &[u8], w: &[u8], value: &mut [u8])
    requires { (0 < length js.now) × (length js.now ≤ 8) × (length value.old ≤ 256)
        × (length w.now ≡ length js.now * block_length (length value.old) (length js.now)) }
    ensures { value.new ≡ value_of js.now (length value.old) w.now }
{
    let b = block_length(value.len(), js.len());
    let decoder = Decoder::new(js);
    for r in 0..b {
        decoder.put_stripe(w, b, r, value);
    }
}

// Decodes the first k of the blocks with the numbers js, which lie end to end in w, into value; whether all of the blocks are blocks of that value.
pub fn decode_all(js: &[u8], w: &[u8], k: usize, value: &mut [u8]) -> bool
    requires { (0 < k) × (k ≤ 8) × (k ≤ length js.now) × (length js.now ≤ 10) × (length value.old ≤ 256)
        × (length w.now ≡ length js.now * block_length (length value.old) k) }
    ensures { (result ≡ agree k (length value.old) js.now w.now)
        × (value.new ≡ candidate k (length value.old) js.now w.now) }
{
    let end = k * block_length(value.len(), k);
    decode_into(&js[..k], &w[..end], value);
    blocks_stand(value, k, js, w)
}
