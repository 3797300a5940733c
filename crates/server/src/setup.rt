// The constructor: what turns it down, and what it stores.
ghost use Rattle.std.specs.Prelude.{◌≡◌, ◌≤◌, length};
ghost use Rattle.std.proofs.lemmas.List.Edits.{sets};
ghost use Rattle.frame.specs.Params.{width, Bounded};
ghost use Rattle.group_rules.specs.Coded.{digests_of, block_at};
ghost use Rattle.frame.specs.Chunks.{area_bytes};
ghost use Rattle.sha256.specs.Hash.{digest_of};
ghost use Rattle.server_rules.specs.Delivery.{constructed, construct_test, construction};

use blocks::Params;
use blocks::encoder::encode_block;
use frame::Refusal;
use frame::bounds::{params_test, width};
use frame::places::AREA_BYTES;
use group::digesting::digests;
use server_rules::{Served, Server};

// Refusals 1, 2, 3 and 10; the lent areas are given by their lengths.
pub fn construct_test(
    g: Params,
    me: u8,
    value: &[u8],
    area: usize,
    initial: usize,
) -> Result<(), Refusal>
    ensures { result ≡ construct_test digest_of g me value.now area initial }
{
    params_test(g, me as usize, g.n)?;
    if value.len() != g.size {
        return Err(Refusal::Length);
    }
    if area < AREA_BYTES {
        return Err(Refusal::Room);
    }
    if initial < width(g) {
        return Err(Refusal::Room);
    }
    Ok(())
}

// The digests of a value's blocks go to the state area, the own block to the initial area.
pub fn store_initial(g: Params, me: u8, value: &[u8], area: &mut [u8], initial: &mut [u8])
    requires { Bounded g × (length value.now ≡ g.size) × (area_bytes ≤ length area.old) × (width g ≤ length initial.old) }
    ensures { (area.new ≡ sets area.old 0 (digests_of digest_of g value.now))
        × (initial.new ≡ sets initial.old 0 (block_at digest_of g value.now me)) }
{
    digests(value, g, area, 0);
    encode_block(value, g.k, me, initial, 0);
}

// A fresh server with the digests of the initial value; its own block of it goes to the initial area.
pub fn construct(g: Params, me: u8, value: &[u8], area: &mut [u8], initial: &mut [u8]) -> Served
    ensures { constructed result area.new initial.new
        ≡ construction digest_of g me value.now area.old initial.old }
{
    let server = Server::fresh();
    let v = construct_test(g, me, value, area.len(), initial.len());
    if let Err(r) = v {
        return Served {
            reply: Err(r),
            server,
        };
    }
    store_initial(g, me, value, area, initial);
    Served {
        reply: Ok(0),
        server,
    }
}
