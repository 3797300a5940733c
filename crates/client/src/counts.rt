// What is counted of an open write: whether n - t servers are marked, whether n - t stamps count, and the largest time of these.
ghost use Rattle.std.specs.Prelude.{◌≡◌, ◌&&◌, get_or};
ghost use Rattle.area.specs.Area.{pick};
ghost use Rattle.frame.specs.Params.{Bounded};
ghost use Rattle.group_rules.specs.Vouching.{backed};
ghost use Rattle.client_rules.specs.Steps.{quorate, gathered, largest_counted};

use blocks::Params;
use client_rules::Client;
use group::matching::tally;
use group::vouching::is_backed;

// Whether n - t servers are marked.
pub fn is_quorate(g: Params, heard: [bool; 11]) -> bool
    requires { Bounded g }
    ensures { result ≡ quorate g heard }
{
    g.n <= tally(heard, g.n) + g.t
}

// Whether a server's stamp counts: one was heard, and t + 1 servers reported its time or more.
fn is_counted(g: Params, heard: bool, time: u64, reports: [u64; 11]) -> bool
    requires { Bounded g }
    ensures { result ≡ (heard && backed g (λ j. get_or reports j 0) time) }
{
    heard && is_backed(reports, g, time)
}

// Whether n - t stamps count.
pub fn is_gathered(s: Client, g: Params) -> bool
    requires { Bounded g }
    ensures { result ≡ gathered g s }
{
    let heard = s.heard;
    let times = s.times;
    let reports = s.reports;
    let mut r = 0;
    for j in 0..g.n {
        let counts = is_counted(g, heard[j + 1], times[j + 1], reports);
        r += usize::from(counts);
    }
    g.n <= r + g.t
}

// The time of a stamp that counts, or 0.
fn time_if(counts: bool, time: u64) -> u64
    ensures { result ≡ pick counts time 0 }
{
    if counts { time } else { 0 }
}

// The largest time of those that count.
pub fn largest_counted(s: Client, g: Params) -> u64
    requires { Bounded g }
    ensures { result ≡ largest_counted g s }
{
    let heard = s.heard;
    let times = s.times;
    let reports = s.reports;
    let mut r = 0;
    for j in 0..g.n {
        let counts = is_counted(g, heard[j + 1], times[j + 1], reports);
        r = time_if(counts, times[j + 1]).max(r);
    }
    r
}
