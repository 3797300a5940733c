// The present block of a server, whose record the host keeps as bytes.
ghost use Rattle.std.specs.Prelude.{◌≡◌};
ghost use Rattle.host_facts.specs.Outcomes.{wrote};
ghost use Rattle.host_facts.specs.Present.{block_call};

use blocks::Params;
use frame::Stamp;
use frame::bounds::{bounds_test, width};
use frame::places::AREA_BYTES;
use frame::refusals::number_of;
use layout::fields::Field;
use layout::servers::SERVER_SIZE;
use server::reads::present_block;

// Copies the present block to the front of block.
pub fn server_block<'a>(
    g: Params,
    area: &'a [u8],
    initial: &'a [u8],
    state: &[u8],
    block: &mut [u8],
) -> u64
    ensures { wrote result block.new
        ≡ block_call g area.now initial.now state.now block.old }
{
    if let Err(r) = bounds_test(g) {
        return number_of(r) as u64;
    }
    let w = width(g);
    if state.len() < SERVER_SIZE
        || area.len() < AREA_BYTES
        || initial.len() < w
        || block.len() < w
    {
        return 10;
    }
    let x = Stamp::get(state, 0);
    area::put(block, 0, present_block(g, x, area, initial));
    0
}
