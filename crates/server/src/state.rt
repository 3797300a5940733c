// The state of a client's write with one thing counted.
ghost use Rattle.std.specs.Prelude.{◌≡◌, ◌<◌};
ghost use Rattle.server_rules.specs.State.{with_blocks, block_sent, block_echo, block_ready, block_marks};

use server_rules::{BlockPart, Slot};

pub fn block_sent(x: Slot) -> Slot
    ensures { result ≡ with_blocks x (block_sent x.blocks) }
{
    let mut y = x;
    y.blocks.sent = true;
    y
}

// Server j's echo, of this time.
pub fn block_echo(x: Slot, j: usize, time: u64) -> Slot
    requires { j < 11 }
    ensures { result ≡ with_blocks x (block_echo x.blocks j time) }
{
    let mut y = x;
    y.blocks.echoes[j] = true;
    y.blocks.echoed[j] = time;
    y
}

// Server j's ready, of this time.
pub fn block_ready(x: Slot, j: usize, time: u64) -> Slot
    requires { j < 11 }
    ensures { result ≡ with_blocks x (block_ready x.blocks j time) }
{
    let mut y = x;
    y.blocks.readies[j] = true;
    y.blocks.readied[j] = time;
    y
}

// Where due, a ready goes out; where full, the write is complete. The time of the group that was complete first is kept.
pub fn block_marks(x: Slot, due: bool, full: bool, time: u64) -> Slot
    ensures { result ≡ with_blocks x (block_marks x.blocks due full time) }
{
    let b = x.blocks;
    let time = if !b.complete && full { time } else { b.time };
    Slot {
        blocks: BlockPart {
            ready: b.ready || due,
            complete: b.complete || full,
            time,
            ..b
        },
        ..x
    }
}
