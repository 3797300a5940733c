// What a write sends once its time is known: to each server its block, with the time and the digest list.
ghost use Rattle.std.specs.Prelude.{◌≡◌, ◌+◌, ◌∷◌, [], length};
ghost use Rattle.sha256.specs.Hash.{digest_of};
ghost use Rattle.frame.specs.declared.Party.TheVariants as P;
ghost use Rattle.frame.specs.Params.{Bounded, entry_length, largest_frame};
ghost use Rattle.frame.specs.Messages.{offer, message, sending, block_is, send};
ghost use Rattle.group_rules.specs.Coded.{entry_of};
ghost use Rattle.frame.specs.Frames.{offer_at};
ghost use Rattle.frame.specs.Outbox.{outbox, sent, first_place, Room};
ghost use Rattle.client_rules.specs.Steps.{dispersal};
ghost use Rattle.client_deliver.specs.Needs.{Dispersing};

use blocks::Params;
use blocks::encoder::encode_block;
use frame::bounds::width;
use frame::places::BLOCK_AT;
use frame::send::send_block;
use frame::{Place, WriteTime};
use group::digesting::digests;

// A write that goes out, and the parameters.
#[derive(Clone, Copy)]
pub struct Dispersal {
    pub params: Params,
    pub write: WriteTime,
}

// Sends server j its block of a value, with the time and the digest list.
fn send_own(
    value: &[u8],
    d: Dispersal,
    list: &[u8],
    j: u8,
    out: &mut [u8],
    to: &mut [u8],
    p: Place,
) -> Place
    requires { Dispersing d.params value.now list.now ×
        Room p 1 (offer_at + entry_length d.params) (length out.old) (length to.old) }
    ensures { outbox out.new to.new result ≡ sent (outbox out.old to.old p)
        (sending (P.Server j) (message d.write.client d.write.sequence
        (block_is send (offer d.write.time (entry_of digest_of d.params value.now j)))) ∷ []) }
{
    let g = d.params;
    let k = g.k;
    let b = width(g);
    let mut block = [0u8; 256];
    let w = d.write;
    encode_block(value, k, j, &mut block, 0);
    send_block(out, to, p, j, w, list, &block[..b])
}

// Sends each server its own block of a value, with the time and the digest list.
fn own_blocks(
    value: &[u8],
    d: Dispersal,
    list: &[u8],
    out: &mut [u8],
    to: &mut [u8],
    p: Place,
) -> Place
    requires { Dispersing d.params value.now list.now ×
        Room p d.params.n (offer_at + entry_length d.params) (length out.old) (length to.old) }
    ensures { outbox out.new to.new result ≡ sent (outbox out.old to.old p)
        (dispersal digest_of d.params d.write.client d.write.sequence value.now d.write.time) }
{
    let g = d.params;
    let mut r = p;
    for j in 0..g.n {
        r = send_own(value, d, list, (j + 1) as u8, out, to, r);
    }
    r
}

// Kind 3 to all, of the write d of a value.
pub fn disperse(value: &[u8], d: Dispersal, out: &mut [u8], to: &mut [u8]) -> Place
    requires { Bounded d.params × (length value.now ≡ d.params.size) ×
        Room first_place d.params.n (largest_frame d.params) (length out.old) (length to.old) }
    ensures { outbox out.new to.new result ≡ sent (outbox out.old to.old first_place)
        (dispersal digest_of d.params d.write.client d.write.sequence value.now d.write.time) }
{
    let g = d.params;
    let mut list = [0u8; BLOCK_AT];
    digests(value, g, &mut list, 0);
    let listed = 32 * g.n;
    let start = Place { at: 0, count: 0 };
    own_blocks(value, d, &list[..listed], out, to, start)
}
