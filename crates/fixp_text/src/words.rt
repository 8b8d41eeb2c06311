//! The numbers of flows and codes in words; a number without a name has no bytes.

ghost use Rattle.std.specs.Prelude.{◌≡◌};
ghost use Rattle.fixp_text.specs.Words.{establishment_reject_name, flow_name, negotiation_reject_name, retransmit_reject_name, terminate_name};

#[tactic(auto, unfolding(crate::specs::Words::flow_name))]
pub fn flow_name(code: u8) -> &'static [u8]
    ensures { result.now ≡ flow_name code }
{
    match code {
        1 => b"Recoverable",
        2 => b"Idempotent",
        3 => b"Unsequenced",
        4 => b"None",
        _ => b"",
    }
}

#[tactic(auto, unfolding(crate::specs::Words::negotiation_reject_name))]
pub fn negotiation_reject_name(code: u8) -> &'static [u8]
    ensures { result.now ≡ negotiation_reject_name code }
{
    match code {
        1 => b"Unspecified",
        2 => b"Credentials",
        3 => b"FlowTypeNotSupported",
        4 => b"DuplicateId",
        _ => b"",
    }
}

#[tactic(auto, unfolding(crate::specs::Words::establishment_reject_name))]
pub fn establishment_reject_name(code: u8) -> &'static [u8]
    ensures { result.now ≡ establishment_reject_name code }
{
    match code {
        1 => b"Unspecified",
        2 => b"Unnegotiated",
        3 => b"AlreadyEstablished",
        4 => b"SessionBlocked",
        5 => b"KeepaliveInterval",
        6 => b"Credentials",
        _ => b"",
    }
}

#[tactic(auto, unfolding(crate::specs::Words::retransmit_reject_name))]
pub fn retransmit_reject_name(code: u8) -> &'static [u8]
    ensures { result.now ≡ retransmit_reject_name code }
{
    match code {
        1 => b"OutOfRange",
        2 => b"InvalidSession",
        3 => b"RequestLimitExceeded",
        _ => b"",
    }
}

#[tactic(auto, unfolding(crate::specs::Words::terminate_name))]
pub fn terminate_name(code: u8) -> &'static [u8]
    ensures { result.now ≡ terminate_name code }
{
    match code {
        1 => b"Finished",
        2 => b"UnspecifiedError",
        3 => b"ReRequestOutOfBounds",
        4 => b"ReRequestInProgress",
        _ => b"",
    }
}
