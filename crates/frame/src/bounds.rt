// The parameters' bounds, and the sizes that follow from them.
ghost use Rattle.std.specs.Prelude.{◌≡◌, ◌≤◌};
ghost use Rattle.frame.specs.Params.{Bounded, width, own_test, code_test, bounds_test, params_test, largest_frame, out_room, to_room, quota};

use crate::Refusal;
use crate::places::VALUE_AT;
use blocks::Params;
use blocks::bounds::{length_fits, parties_fit, threshold_fits};

// Refusal 1, of the own number: me is not one of parties 1 to most.
pub fn own_test(me: usize, most: usize) -> Result<(), Refusal>
    ensures { result ≡ own_test me most }
{
    if me < 1 || most < me {
        return Err(Refusal::Parties);
    }
    Ok(())
}

// Refusals 2 and 3, but for a value's length.
pub fn code_test(g: Params) -> Result<(), Refusal>
    ensures { result ≡ code_test g }
{
    if !threshold_fits(g.n, g.t, g.k) {
        return Err(Refusal::Threshold);
    }
    if !length_fits(g.size) {
        return Err(Refusal::Length);
    }
    Ok(())
}

// Refusals 1 to 3, without an own number.
pub fn bounds_test(g: Params) -> Result<(), Refusal>
    ensures { result ≡ bounds_test g }
{
    if !parties_fit(g.n, g.t) {
        return Err(Refusal::Parties);
    }
    code_test(g)
}

// Refusals 1 to 3, of party me of parties 1 to most.
pub fn params_test(g: Params, me: usize, most: usize) -> Result<(), Refusal>
    ensures { result ≡ params_test g me most }
{
    if !parties_fit(g.n, g.t) {
        return Err(Refusal::Parties);
    }
    own_test(me, most)?;
    code_test(g)
}

// b: the bytes of a block.
pub fn width(g: Params) -> usize
    requires { Bounded g }
    ensures { (result ≡ width g) × (1 ≤ result) × (result ≤ 256) }
{
    (g.size + (g.k - 1)) / g.k
}

// The largest frame: a value.
pub fn largest_frame(g: Params) -> usize
    requires { Bounded g }
    ensures { (result ≡ largest_frame g) × (result ≤ 598) }
{
    VALUE_AT + (32 * g.n + width(g))
}

// The bytes that m frames may take in the out area.
pub fn out_room(g: Params, m: usize) -> usize
    requires { Bounded g × (m ≤ 226) }
    ensures { result ≡ out_room g m }
{
    m * largest_frame(g)
}

// The bytes that the receivers of m frames take in the to area.
pub fn to_room(m: usize) -> usize
    requires { m ≤ 226 }
    ensures { result ≡ to_room m }
{
    2 * m
}

// q: the larger of k and t + 1.
pub fn quota(g: Params) -> usize
    requires { Bounded g }
    ensures { result ≡ quota g }
{
    g.k.max(g.t + 1)
}
