// The search of the rows: "the search of the rows stops at the first stamp and digest list found in n - t of them".
ghost use Rattle.std.specs.Prelude.{◌≡◌, ◌+◌, ◌≤◌, length};
ghost use Rattle.frame.specs.Chunks.{chunk_at, entry_at, chunk_bytes};
ghost use Rattle.group.specs.Needs.{Comparing};
ghost use Rattle.client_rules.specs.Rows.{rows_from, agreed, first_agreed};
ghost use Rattle.client_search.specs.Search.{view, holders_of, Searching, standing, Inside};

use crate::Hits;
use crate::at_stamp::hits;
use blocks::Params;
use client::rows::used_places;
use client_rules::Row;
use frame::Stamp;
use frame::entries::digests_at;
use group::matching::{matching, tally};

// Of what the rows have at a stamp, that with the digest list in chunk p.
pub fn holders(h: Hits, p: usize, area: &[u8], g: Params) -> Hits
    requires { Comparing g h.at area.now × (chunk_at p + chunk_bytes ≤ length area.now) }
    ensures { result ≡ holders_of g area.now h p }
{
    let on = h.on;
    let at = h.at;
    let list = digests_at(area, p, g);
    let on = matching(on, at, area, list, g);
    Hits { on, at }
}

// Whether stamp x and the digest list in chunk p are in n - t rows. The lists are compared only where n - t rows have the stamp.
fn is_agreed(rows: [Row; 11], x: Stamp, p: usize, area: &[u8], g: Params) -> bool
    requires { Searching g (length area.now) × (p ≤ 39) }
    ensures { result ≡ agreed g (view g rows area.now) (record { stamp = x; entry = entry_at g area.now p }) }
{
    let h = hits(rows, x);
    let on = h.on;
    if tally(on, g.n) + g.t < g.n {
        return false;
    }
    let k = holders(h, p, area, g);
    let on = k.on;
    g.n <= tally(on, g.n) + g.t
}

// The first place, by rising server and place, whose stamp and digest list are in n - t rows.
pub fn search(rows: [Row; 11], area: &[u8], g: Params) -> Option<(usize, usize)>
    requires { Searching g (length area.now) }
    ensures { (standing g rows area.now result
        ≡ first_agreed g (view g rows area.now) (rows_from (view g rows area.now) 1 g.n)) × Inside result }
{
    let mut found = None;
    // document 01 names this form: nested loops, left from inside by a label
    'search: for j in 1..g.n + 1 {
        let r = rows[j];
        let m = used_places(r);
        let stamps = r.stamps;
        for i in 0..m {
            let x = stamps[i];
            if is_agreed(rows, x, 4 * j - 4 + i, area, g) {
                found = Some((j, i));
                break 'search;
            }
        }
    }
    found
}
