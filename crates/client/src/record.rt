// The client's record with a part changed.
ghost use Rattle.std.specs.Prelude.{◌≡◌, ◌<◌};
ghost use Rattle.client_rules.specs.State.{in_phase, shut, with_row, with_report};

use client_rules::{Client, Phase, Row};

// In a phase, with what that phase counts.
pub fn in_phase(s: Client, phase: Phase, heard: [bool; 11], times: [u64; 11]) -> Client
    ensures { result ≡ in_phase s phase heard times }
{
    Client {
        phase,
        heard,
        times,
        ..s
    }
}

// Out of stamps.
pub fn shut(s: Client) -> Client
    ensures { result ≡ shut s }
{
    Client {
        closed: true,
        phase: Phase::Idle,
        ..s
    }
}

// With server j's row.
pub fn with_row(s: Client, j: usize, r: Row) -> Client
    requires { j < 11 }
    ensures { result ≡ with_row s j r }
{
    let mut y = s;
    y.rows[j] = r;
    y
}

// Server j reported a time; the highest of each is kept.
pub fn with_report(s: Client, j: usize, time: u64) -> Client
    requires { j < 11 }
    ensures { result ≡ with_report s j time }
{
    let mut y = s;
    let old = y.reports[j];
    y.reports[j] = old.max(time);
    y
}
