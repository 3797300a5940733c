// Which phase a client is in.
ghost use Rattle.std.specs.Prelude.{◌≡◌};
ghost use Rattle.client_rules.specs.State.{idle, asking, acking, reading, writing};

use client_rules::Phase;

pub fn is_idle(p: Phase) -> bool
    ensures { result ≡ idle p }
{
    matches!(p, Phase::Idle)
}

pub fn is_asking(p: Phase) -> bool
    ensures { result ≡ asking p }
{
    matches!(p, Phase::Asking)
}

pub fn is_acking(p: Phase) -> bool
    ensures { result ≡ acking p }
{
    matches!(p, Phase::Acking)
}

pub fn is_reading(p: Phase) -> bool
    ensures { result ≡ reading p }
{
    matches!(p, Phase::Reading)
}

// Whether a write is open.
pub fn is_writing(p: Phase) -> bool
    ensures { result ≡ writing p }
{
    matches!(p, Phase::Asking | Phase::Acking)
}
