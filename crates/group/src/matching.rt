// Which servers sent a time, which a digest list, and how many.
ghost use Rattle.std.specs.Prelude.{◌≡◌, ◌&&◌, ◌+◌, ◌≤◌, length, leb, eqb};
ghost use Rattle.area.specs.Area.{same};
ghost use Rattle.quorum.specs.Quorum.{count};
ghost use Rattle.frame.specs.Params.{Bounded};
ghost use Rattle.frame.specs.Chunks.{chunk_at, entry_at, chunk_bytes};
ghost use Rattle.group.specs.Entries.{marked, timed, sent_list, flags, places_from};
ghost use Rattle.group.specs.Needs.{Comparing};

use blocks::Params;
use frame::entries::digests_at;

// How many of servers 1 to n are flagged.
pub fn tally(on: [bool; 11], n: usize) -> usize
    requires { n ≤ 10 }
    ensures { (result ≡ count (marked on) n) × (result ≤ n) }
{
    on[1..n + 1].iter().filter(|mark| **mark).count()
}

// The flags of the servers that sent this time; server j's is at place j of times.
pub fn at_time(on: [bool; 11], times: [u64; 11], time: u64) -> [bool; 11]
    ensures { result ≡ timed on times time }
{
    let mut r = [false; 11];
    for j in 0..11 {
        r[j] = on[j] && times[j] == time;
    }
    r
}

// The chunks of servers 1 to 10, where server j's is chunk first + j.
pub fn places(first: usize) -> [usize; 11]
    requires { first ≤ 1000 }
    ensures { result ≡ places_from first }
{
    let mut r = [0; 11];
    for j in 0..11 {
        r[j] = first + j;
    }
    r
}

// Whether server j is one of 1 to n, is flagged, and the digest list in chunk p of the area is the list.
fn sent_list(j: usize, mark: bool, p: usize, area: &[u8], list: &[u8], g: Params) -> bool
    requires { Bounded g × (chunk_at p + chunk_bytes ≤ length area.now) }
    ensures { result ≡ leb 1 j && (leb j g.n && (mark && same (entry_at g area.now p).digests list.now)) }
{
    1 <= j && j <= g.n && mark && area::equal(digests_at(area, p, g), list)
}

// The flags of the servers that sent the list.
pub fn matching(on: [bool; 11], at: [usize; 11], area: &[u8], list: &[u8], g: Params) -> [bool; 11]
    requires { Comparing g at area.now }
    ensures { result ≡ flags (sent_list g on at area.now list.now) g.n }
{
    let mut r = [false; 11];
    for j in 0..11 {
        r[j] = sent_list(j, on[j], at[j], area, list, g);
    }
    r
}
