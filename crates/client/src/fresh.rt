// A client that has begun nothing.
ghost use Rattle.std.specs.Prelude.{◌≡◌, replicate};
ghost use Rattle.client_rules.specs.State.{fresh_row, fresh_client};

use client_rules::{Client, Phase, Row};
use frame::stamps::zero_stamp;

fn fresh_row() -> Row
    ensures { result ≡ fresh_row }
{
    let x = zero_stamp();
    let stamps = [x; 4];
    Row { count: 0, stamps }
}

// The rows of a read that has just begun.
pub fn fresh_rows() -> [Row; 11]
    ensures { result ≡ replicate 11 fresh_row }
{
    let r = fresh_row();
    [r; 11]
}

pub fn fresh_client() -> Client
    ensures { result ≡ fresh_client }
{
    let rows = fresh_rows();
    Client {
        writes: 0,
        reads: 0,
        closed: false,
        phase: Phase::Idle,
        heard: [false; 11],
        times: [0; 11],
        rows,
        reports: [0; 11],
    }
}
