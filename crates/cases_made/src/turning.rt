//! One turn, and where the end stands behind it.

ghost use Rattle.std.specs.Prelude.{◌+◌, ◌^◌};
ghost use Rattle.gate_turn.specs.Places.{known};
ghost use Rattle.gate_turn.specs.Calls.{IsFree};
ghost use Rattle.gate_senders.specs.Gate.{IsPassAt};
ghost use Rattle.conn_loop.specs.Conn.{line_of, Looks};
ghost use Rattle.cases_made.specs.Driving.{CanTurn, Stands};

use crate::journals::Log;
use crate::standing::Standing;
use conn_loop::{Conn, News};
use gate_senders::{Gate, Kept};
use gate_turn::Pass;
use gw_link_fakes::MemClock;
use gw_links::Link;
use jr_kept::Inbox;
use std::sync::Wait;

/// Makes a turn of the connection, and answers where it stands then.
pub(crate) fn make_turn<L: Link, R: Wait>(
    conn: &mut Conn,
    link: &mut L,
    gate: &Gate<Log>,
    pass: &mut Pass<Kept<Log>>,
    inbox: &mut Inbox<Log>,
    clock: &mut MemClock,
    news: &mut News,
    rt: &R,
) -> Standing
    requires own { IsPassAt gate.now pass.old }
    requires free { IsFree pass.old }
    requires can { CanTurn (line_of conn.old) (2 ^ 62 + 2 ^ 61) (known pass.old) inbox.old }
    ensures own { IsPassAt gate.now pass.new }
    ensures free { IsFree pass.new }
    ensures looks { Looks (known pass.old) (known pass.new) }
    ensures stands { Stands result (line_of conn.new) ((line_of conn.old).place + 4195840) (known pass.new) inbox.new }
{
    Standing::behind(conn.turn(link, gate, pass, inbox, clock, news, rt))
}
