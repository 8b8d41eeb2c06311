//! What a session makes of CONFIG, and what it reads of INPUT: the end that is configured, and the plans of its senders.

ghost use Rattle.std.specs.Prelude.{◌≡◌, ◌≤◌, map, length, vec_len, IfOk, IfErr, IsErrOf};
ghost use Rattle.std.specs.Option.{ForSome};
ghost use Rattle.gw_outside.specs.Faults.{HasRisen};
ghost use Rattle.plan_values.specs.Plans.{payloads_of};
ghost use Rattle.plan_text.specs.Plans.{HasPlans};
ghost use Rattle.cmd_session.specs.Inputs.{end_of, ArePlanned, RefusesInput};

use cmd_base::{Bad, INPUT_LIMIT, Status, TextFault, read_text};
use cmd_config::{Link, own_flow, peer_flow};
use fixp_shake::{EndConfig, Role};
use gw_outside::Source;
use plan_text::{PlanFault, read_plans};
use plan_values::Plan;
use std::alloc::Global;

/// An end of this role, as its configuration has it.
pub fn end_config(role: Role, link: Link) -> EndConfig
    ensures { result ≡ end_of role link }
{
    let Link {
        session,
        keepalive,
        client_flow,
        server_flow,
        credentials,
        version,
    } = link;
    EndConfig {
        role,
        session,
        own_flow: own_flow(role, client_flow, server_flow),
        peer_flow: peer_flow(role, client_flow, server_flow),
        keepalive,
        credentials,
        version,
    }
}

/// A text of INPUT, and the plans that it has, that of sender 1 first.
#[derive(Drop)]
pub struct Given {
    pub text: Vec<u8>,
    pub plans: Vec<Plan>,
}

/// Reads the plans of so many senders from INPUT.
///
/// # Errors
/// `Message` with the first line that gives no payload to a sender, or where the text is too long; `InputFault` where the
/// source failed; and `Memory`.
pub fn read_input<S: Source>(alloc: Global, senders: u16, input: &mut S) -> Result<Given, Status>
    ensures planned { IfOk result (λ given. ArePlanned senders (S.left input.old) (map payloads_of given.plans.items)) }
    ensures many { IfOk result (λ given. vec_len given.plans ≡ senders) }
    ensures text { IfOk result (λ given. ForSome (S.left input.old) (λ text. text ≡ given.text.items)) }
    ensures has { IfOk result (λ given. HasPlans (length given.plans.items) given.text.items (map payloads_of given.plans.items)) }
    ensures refused { IfErr result (RefusesInput senders (S.left input.old)) }
    ensures counted { S.faults input.old ≤ S.faults input.new }
    ensures fault { IsErrOf result Status.InputFault → HasRisen (S.faults input.old) (S.faults input.new) }
{
    let text = match read_text(alloc, input, INPUT_LIMIT) {
        Ok(text) => text,
        Err(TextFault::Source) => return Err(Status::InputFault),
        Err(TextFault::Memory) => return Err(Status::Memory),
    };
    if text.len() > INPUT_LIMIT {
        return Err(Status::Message(Bad::TooLong));
    }
    match read_plans(alloc, senders, text.as_slice()) {
        Ok(plans) => Ok(Given { text, plans }),
        Err(PlanFault::Line { line }) => Err(Status::Message(Bad::Line { line })),
        Err(PlanFault::Memory) => Err(Status::Memory),
    }
}
