//! Who sends at each end of a rehearsal, as a script says.

ghost use Rattle.cmd_script.specs.Script.{IsLoadInRange, IsScript};
ghost use Rattle.order_staff.specs.Staffs.{MayBe};

use cmd_script::{Load, Script};
use fixp_shake::Role;
use order_gate::Terms;
use order_staff::Posts;

/// Who sends at the acceptor: nobody, or desks.
fn desks_of(load: &Load) -> Posts
    requires { IsLoadInRange load.now }
    ensures { MayBe result }
{
    if load.desks == 0 {
        return Posts::Senders { count: 0 };
    }
    Posts::Desks {
        terms: Terms {
            desks: u16::from(load.desks),
            version: u16::from(load.desk_version),
            reference: load.reference as i64,
        },
    }
}

/// Who sends at the end of a role.
pub(crate) fn posts_of(script: &Script, role: Role) -> Posts
    requires { IsScript script.now }
    ensures { MayBe result }
{
    match role {
        Role::Initiator => Posts::Senders {
            count: script.load.messages.len() as u16,
        },
        Role::Acceptor => desks_of(&script.load),
    }
}
