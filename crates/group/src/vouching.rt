// Which times servers have reported.
ghost use Rattle.std.specs.Prelude.{◌≡◌, get_or};
ghost use Rattle.frame.specs.Params.{Bounded};
ghost use Rattle.group_rules.specs.Vouching.{backed};

use blocks::Params;

// Whether t + 1 servers have reported the time or more; server j's highest report is at place j.
pub fn is_backed(reports: [u64; 11], g: Params, time: u64) -> bool
    requires { Bounded g }
    ensures { result ≡ backed g (λ j. get_or reports j 0) time }
{
    let backing = reports[1..g.n + 1].iter().filter(|report| time <= **report);
    g.t + 1 <= backing.count()
}
