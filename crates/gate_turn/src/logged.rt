//! What a value under a turn lock tells of itself.
ghost use Rattle.std.specs.Prelude.{◌≡◌, ◌^◌, ◌<◌, ◌↔◌, true, length, IsTrue};
ghost use Rattle.gate_turn.specs.Views.{Account};

/// A value that stands for a history: entries, behind which the mark that nothing more comes may stand.
/// It also says, in proofs alone, how often its device failed, what its limits are, whether it takes nothing any more, and the
/// records whose adding failed.
pub trait Logged {
    ghost use Rattle.gate_turn.specs.Views.{Account};

    ghost tells: { Self → Account };

    /// The number of entries, below 2^40.
    fn length(&self) -> u64
        ensures exact { result ≡ length (tells self.now).history.made }
        ensures few { result < 2 ^ 40 };

    /// Whether the mark stands behind the entries.
    fn marked(&self) -> bool
        ensures exact { IsTrue result ↔ ((tells self.now).history.finished ≡ true) };
}
