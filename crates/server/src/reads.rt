// Reads: what a server answers from, and the reader that it notes.
ghost use Rattle.std.specs.Prelude.{◌≡◌, ◌∷◌, [], ◌+◌, ◌≤◌, length};
ghost use Rattle.frame.specs.declared.Party.TheVariants as P;
ghost use Rattle.frame.specs.Params.{width, largest_frame, Bounded};
ghost use Rattle.frame.specs.Messages.{message, sending, value_is};
ghost use Rattle.frame.specs.Outbox.{outbox, sent, Room};
ghost use Rattle.frame.specs.Chunks.{area_bytes};
ghost use Rattle.server_rules.specs.State.{present_block, present_entry};

use blocks::Params;
use frame::bounds::width;
use frame::entries::digests_at;
use frame::places::BLOCK_AT;
use frame::send::send_value;
use frame::{Place, Stamp};

// The present block: a part of the initial area that the host lends until the first accepted write, then of the state area.
pub fn present_block<'a>(g: Params, x: Stamp, area: &'a [u8], initial: &'a [u8]) -> &'a [u8]
    requires { Bounded g × (area_bytes ≤ length area.now) × (width g ≤ length initial.now) }
    ensures { (result.now ≡ present_block g x area.now initial.now) × (length result.now ≡ width g) }
{
    let w = width(g);
    if x.time == 0 {
        return &initial[..w];
    }
    let end = BLOCK_AT + w;
    &area[BLOCK_AT..end]
}

// Answers client c's read q with the present value.
pub fn send_present<'a>(
    g: Params,
    x: Stamp,
    c: u8,
    q: u32,
    area: &'a [u8],
    initial: &'a [u8],
    out: &mut [u8],
    to: &mut [u8],
    p: Place,
) -> Place
    requires { Bounded g × (area_bytes ≤ length area.now) × (width g ≤ length initial.now)
        × Room p 1 (largest_frame g) (length out.old) (length to.old) }
    ensures { outbox out.new to.new result
        ≡ sent (outbox out.old to.old p)
        (sending (P.Client c) (message c q (value_is x (present_entry g x area.now initial.now))) ∷ []) }
{
    let block = present_block(g, x, area, initial);
    let digests = digests_at(area, 0, g);
    send_value(out, to, p, c, q, x, digests, block)
}
