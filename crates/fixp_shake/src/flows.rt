//! Which kinds of flow have numbers, and which have none.

ghost use Rattle.std.specs.Prelude.{◌≡◌};
ghost use Rattle.fixp_shake.specs.Flows.{is_absent, is_idempotent, is_recoverable, is_sequenced};

use fixp_msgs::Flow;

/// Whether what was lost of the flow is sent again: exactly once, in order.
pub fn is_recoverable(flow: Flow) -> bool
    ensures { result ≡ is_recoverable flow }
{
    matches!(flow, Flow::Recoverable)
}

/// Whether what was lost of the flow is told, and not sent again: at most once.
pub fn is_idempotent(flow: Flow) -> bool
    ensures { result ≡ is_idempotent flow }
{
    matches!(flow, Flow::Idempotent)
}

/// Whether the messages of the flow have numbers that are announced.
pub fn is_sequenced(flow: Flow) -> bool
    ensures { result ≡ is_sequenced flow }
{
    matches!(flow, Flow::Recoverable | Flow::Idempotent)
}

/// Whether no application message goes in this direction.
pub fn is_absent(flow: Flow) -> bool
    ensures { result ≡ is_absent flow }
{
    matches!(flow, Flow::None)
}
