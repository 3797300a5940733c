// What the rows have at a stamp.
ghost use Rattle.std.specs.Prelude.{◌≡◌, ◌≤◌};
ghost use Rattle.client_search.specs.AtStamp.{first_from, hit_at, hits_of};

use crate::Hits;
use client::rows::used_places;
use client_rules::Row;
use frame::Stamp;
use frame::stamps::is_same;

// The first of the first m places with stamp x, or m.
fn first_place(stamps: [Stamp; 4], m: usize, x: Stamp) -> usize
    requires { m ≤ 4 }
    ensures { (result ≡ first_from stamps 0 m x) × (result ≤ m) }
{
    for i in 0..m {
        if is_same(stamps[i], x) {
            return i;
        }
    }
    m
}

// The chunk of what server j's row has at stamp x.
fn hit_at(j: usize, r: Row, x: Stamp) -> Option<usize>
    requires { j ≤ 10 }
    ensures { result ≡ hit_at j r x }
{
    if j < 1 {
        return None;
    }
    let m = used_places(r);
    let stamps = r.stamps;
    let i = first_place(stamps, m, x);
    if m <= i {
        return None;
    }
    Some(4 * j - 4 + i)
}

// What all rows have at stamp x.
pub fn hits(rows: [Row; 11], x: Stamp) -> Hits
    ensures { result ≡ hits_of rows x }
{
    let mut on = [false; 11];
    let mut at = [0; 11];
    for j in 0..11 {
        let h = hit_at(j, rows[j], x);
        on[j] = h.is_some();
        at[j] = h.unwrap_or(0);
    }
    Hits { on, at }
}
