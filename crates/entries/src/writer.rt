// Entries written.
ghost use Rattle.std.specs.Prelude.{◌≡◌, ◌<◌};
ghost use Rattle.entries.specs.Entries.{lead_bytes};
ghost use Rattle.entries.specs.Writing.{written, writing_response, writing};

use crate::{FRAME_AT, LONGEST, VERSION};
use frame::parties::party_bytes;
use frame::{Party, Refusal};

// The bytes of an entry before its frame; size is how many bytes follow the length.
fn lead_bytes(sender: Party, size: usize) -> [u8; 5]
    ensures { result ≡ lead_bytes size sender }
{
    let high = (size / 256 % 256) as u8;
    let low = (size % 256) as u8;
    let party = party_bytes(sender);
    [high, low, VERSION, party[0], party[1]]
}

// Writes an entry at the front of out. Refusal 3: the frame is too long for an entry; 10: out is too short.
pub fn write_entry(sender: Party, f: &[u8], out: &mut [u8]) -> Result<usize, Refusal>
    ensures { written (writing_response result) out.new ≡ writing sender f.now out.old }
{
    if LONGEST < f.len() {
        return Err(Refusal::Length);
    }
    let size = FRAME_AT + f.len();
    if out.len() < size {
        return Err(Refusal::Room);
    }
    let lead = lead_bytes(sender, size - 2);
    area::put(out, 0, &lead);
    area::put(out, FRAME_AT, f);
    Ok(size)
}
