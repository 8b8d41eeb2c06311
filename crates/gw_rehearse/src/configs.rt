//! The configuration of each end, as a script says.

ghost use Rattle.std.specs.Prelude.{◌≡◌, ◌≤◌, length, IfOk};
ghost use Rattle.cmd_config.specs.Settings.{own_flow, peer_flow};
ghost use Rattle.cmd_script.specs.Script.{IsScript};

use cmd_config::{Link, own_flow, peer_flow};
use cmd_script::Script;
use fixp_shake::{EndConfig, Role};
use std::alloc::{AllocError, Global};

/// The session of a script, 16 bytes.
fn session_of(link: &Link) -> [u8; 16]
    ensures long { length result ≡ 16 }
{
    let session = link.session;
    sized(session)
}

/// A session, which has 16 bytes.
fn sized(session: [u8; 16]) -> [u8; 16]
    ensures long { length result ≡ 16 }
{
    session
}

/// The configuration of the end of a role.
pub(crate) fn config_of(alloc: Global, script: &Script, role: Role) -> Result<EndConfig, AllocError>
    requires { IsScript script.now }
    ensures own { IfOk result (λ c. c.own_flow ≡ own_flow role script.now.link.client_flow script.now.link.server_flow) }
    ensures peer { IfOk result (λ c. c.peer_flow ≡ peer_flow role script.now.link.client_flow script.now.link.server_flow) }
    ensures session { IfOk result (λ c. length c.session ≡ 16) }
    ensures keepalive { IfOk result (λ c. (100 ≤ c.keepalive) × (c.keepalive ≤ 60000)) }
    ensures credentials { IfOk result (λ c. length c.credentials ≤ 2048) }
    ensures version { IfOk result (λ c. c.version ≡ script.now.link.version) }
{
    let link = &script.link;
    let session = session_of(link);
    let credentials = link.credentials.copy(alloc)?;
    Ok(EndConfig {
        role,
        session,
        own_flow: own_flow(role, link.client_flow, link.server_flow),
        peer_flow: peer_flow(role, link.client_flow, link.server_flow),
        keepalive: link.keepalive,
        credentials,
        version: link.version,
    })
}
