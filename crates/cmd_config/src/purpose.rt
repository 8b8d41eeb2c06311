//! What a configuration is for: `answer`, or an end on live connections; and the flows of the roles.

ghost use Rattle.std.specs.Prelude.{◌≡◌};
ghost use Rattle.cmd_config.specs.Settings.{allows_client, allows_server, is_accept, is_none, is_unsequenced, own_flow, peer_flow, role_of};

use fixp_msgs::Flow;
use fixp_shake::Role;

/// What a configuration is for.
#[derive(Clone, Copy)]
pub enum Purpose {
    /// `answer`: the acceptor over recorded bytes.
    Recorded,
    /// `accept` and `connect`: an end of this role on live connections.
    Live(Role),
}

/// The role of the end that a configuration is for.
pub fn role_of(purpose: Purpose) -> Role
    ensures { result ≡ role_of purpose }
{
    match purpose {
        Purpose::Recorded => Role::Acceptor,
        Purpose::Live(role) => role,
    }
}

/// Whether it is for `accept`.
pub(crate) fn is_accept(purpose: Purpose) -> bool
    ensures { result ≡ is_accept purpose }
{
    matches!(purpose, Purpose::Live(Role::Acceptor))
}

fn is_unsequenced(flow: Flow) -> bool
    ensures { result ≡ is_unsequenced flow }
{
    matches!(flow, Flow::Unsequenced)
}

/// Whether a flow is none.
pub(crate) fn is_none(flow: Flow) -> bool
    ensures { result ≡ is_none flow }
{
    matches!(flow, Flow::None)
}

/// Whether the client may send this flow.
pub(crate) fn allows_client(purpose: Purpose, client: Flow) -> bool
    ensures { result ≡ allows_client purpose client }
{
    match purpose {
        Purpose::Recorded => is_unsequenced(client),
        Purpose::Live(_) => true,
    }
}

/// Whether the server may send this flow.
pub(crate) fn allows_server(purpose: Purpose, server: Flow) -> bool
    ensures { result ≡ allows_server purpose server }
{
    match purpose {
        Purpose::Recorded => is_none(server),
        Purpose::Live(_) => true,
    }
}

/// The flow that a role sends.
pub fn own_flow(role: Role, client: Flow, server: Flow) -> Flow
    ensures { result ≡ own_flow role client server }
{
    match role {
        Role::Initiator => client,
        Role::Acceptor => server,
    }
}

/// The flow that a role receives.
pub fn peer_flow(role: Role, client: Flow, server: Flow) -> Flow
    ensures { result ≡ peer_flow role client server }
{
    match role {
        Role::Initiator => server,
        Role::Acceptor => client,
    }
}
