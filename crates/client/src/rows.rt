// One server's row of a read: the stamps kept of it, and where a new one goes.
ghost use Rattle.std.specs.Prelude.{◌≡◌, ◌+◌, ◌≤◌, ◌<◌, get_or, ltb};
ghost use Rattle.area.specs.Area.{pick};
ghost use Rattle.frame.specs.Stamps.{older, zero_stamp};
ghost use Rattle.client_rules.specs.Rows.{used, has_stamp, smallest, place_for, row_with};
ghost use Rattle.client.specs.Stages.{spot_of};

use client_rules::Row;
use frame::Stamp;
use frame::stamps::{is_older, is_same};

// How many places of a row are used.
pub fn used_places(r: Row) -> usize
    ensures { (result ≡ used r) × (result ≤ 4) }
{
    r.count.min(4)
}

// Whether x is among the first m stamps.
pub fn has_stamp(stamps: [Stamp; 4], m: usize, x: Stamp) -> bool
    requires { m ≤ 4 }
    ensures { result ≡ has_stamp stamps m x }
{
    for i in 0..m {
        if is_same(stamps[i], x) {
            return true;
        }
    }
    false
}

// Of the two places i and least, the one with the smaller stamp; least if they are equal.
fn smaller(stamps: [Stamp; 4], i: usize, least: usize) -> usize
    requires { (i < 4) × (least < 4) }
    ensures { (result ≡ pick (older (get_or stamps i zero_stamp) (get_or stamps least zero_stamp)) i least) × (result < 4) }
{
    let x = stamps[i];
    let y = stamps[least];
    if is_older(x, y) { i } else { least }
}

// The place of the smallest of four stamps.
fn smallest_of(stamps: [Stamp; 4]) -> usize
    ensures { (result ≡ smallest stamps 3) × (result < 4) }
{
    let a = smaller(stamps, 1, 0);
    let b = smaller(stamps, 2, a);
    smaller(stamps, 3, b)
}

// Where a new stamp goes: after the others, in place of the smallest of four, or nowhere.
pub fn place_for(r: Row, x: Stamp) -> Option<usize>
    ensures { result ≡ spot_of (place_for r x) }
{
    if r.count < 4 {
        return Some(r.count);
    }
    let stamps = r.stamps;
    let i = smallest_of(stamps);
    let y = stamps[i];
    if is_older(y, x) {
        return Some(i);
    }
    None
}

// One more, up to four; a larger count stays.
fn more(count: usize) -> usize
    ensures { result ≡ pick (ltb count 4) (count + 1) count }
{
    if count < 4 { count + 1 } else { count }
}

// The row with stamp x at place i.
pub fn row_with(r: Row, i: usize, x: Stamp) -> Row
    requires { i < 4 }
    ensures { result ≡ row_with r i x }
{
    let mut stamps = r.stamps;
    stamps[i] = x;
    Row {
        count: more(r.count),
        stamps,
    }
}
