// The comparison of a group: its value is decoded and encoded afresh, its blocks and all n digests are compared with those of that encoding.
ghost use Rattle.std.specs.Prelude.{◌≡◌, ◌≤◌, length};
ghost use Rattle.std.proofs.lemmas.List.Edits.{sets};
ghost use Rattle.blocks.specs.Code.{block_of};
ghost use Rattle.sha256.specs.Hash.{digest_of};
ghost use Rattle.frame.specs.Params.{Bounded, listed};
ghost use Rattle.server_blocks.specs.Group.{group_of, group_value, group_equal, Regaining};

use crate::{Group, Voters};
use blocks::Params;
use blocks::encoder::encode_block;
use frame::bounds::quota;
use frame::places::{CLIENT_CHUNKS, ECHOES_BACK, READIES_BACK};
use group::decoding::regain;
use group::digesting::agrees;
use group::matching::places;
use server::Call;

// The readies of the group if there are q, else the echoes.
fn chosen_group(g: Params, v: Voters, c: u8) -> Group
    requires { Bounded g × (1 ≤ c) × (c ≤ 8) }
    ensures { result ≡ group_of g v c }
{
    let i = c as usize;
    if quota(g) <= v.readied {
        let on = v.readies;
        let at = places(CLIENT_CHUNKS * i - READIES_BACK);
        return Group { on, at };
    }
    let on = v.echoes;
    let at = places(CLIENT_CHUNKS * i - ECHOES_BACK);
    Group { on, at }
}

// The own block of the group's value into the front of block; whether all of the group have that value's blocks, and their digests are the list.
pub fn own_block(k: Call, v: Voters, area: &[u8], list: &[u8], block: &mut [u8]) -> bool
    requires { Regaining k.params v k.header.client (length area.now) × (length list.now ≡ listed k.params) × (256 ≤ length block.old) }
    ensures { (result ≡ group_equal digest_of k.params v k.header.client area.now list.now) ×
        (block.new ≡
        sets block.old 0 (block_of k.params.k (group_value k.params v k.header.client area.now) k.me)) }
{
    let g = k.params;
    let h = k.header;
    let size = g.size;
    let c = chosen_group(g, v, h.client);
    let on = c.on;
    let at = c.at;
    let mut value = [0u8; 256];
    regain(on, at, area, g, &mut value[..size]);
    encode_block(&value[..size], g.k, k.me, block, 0);
    agrees(&value[..size], list, on, at, area, g)
}
