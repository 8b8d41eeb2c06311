//! How many rounds suffice, computed.

ghost use Rattle.std.specs.Prelude.{◌≡◌, ◌+◌, ◌*◌, ◌≤◌};
ghost use Rattle.drain_laws.specs.Beginning.{bound};
ghost use Rattle.drain_rounds.specs.Rounds.{rounds_for};

/// As many rounds suffice for outboxes of seven entries together: each lowers what is left by 2.
pub fn rounds_sample() -> u64
    ensures rounds { result ≡ rounds_for 7 }
    ensures enough { bound 7 + 10 ≤ 2 * rounds_for 7 }
{
    176
}
