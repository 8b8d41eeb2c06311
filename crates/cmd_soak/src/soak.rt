//! The script of a soak, from the number of its messages.

ghost use Rattle.std.specs.Prelude.{◌≡◌, ◌≤◌, All, IfOk};
ghost use Rattle.cmd_config.specs.Settings.{IsLinkInRange};
ghost use Rattle.cmd_script.specs.Script.{IsCount, IsLoadInRange, IsScript};
ghost use Rattle.cmd_soak.specs.Soak.{dealt, soak_link, soak_load, soak_messages, soak_script, soak_steps};

use cmd_config::{Link, Range};
use cmd_script::{Counts, Load, Script, Step, Steps};
use fixp_msgs::Flow;
use sbe_value::Bytes;
use std::alloc::{AllocError, Global};

/// The messages of a soak.
pub const SOAK: Range = Range {
    least: 4,
    greatest: 100_000,
};

/// The session of each soak: 00112233-4455-6677-8899-aabbccddeeff.
const SESSION: [u8; 16] = [
    0x00, 0x11, 0x22, 0x33, 0x44, 0x55, 0x66, 0x77, 0x88, 0x99, 0xaa, 0xbb, 0xcc, 0xdd, 0xee, 0xff,
];

/// A burst of each sender, and the rounds behind it.
const BURST: Step = Step::Burst {
    count: 1250,
    rounds: 500,
};

/// The messages of a burst of all four senders.
const BURST_OF_ALL: u32 = 5000;

/// The session, of two recoverable flows.
fn soak_link(alloc: Global) -> Link
    ensures value { result ≡ soak_link }
    ensures range { IsLinkInRange result }
{
    Link {
        session: SESSION,
        keepalive: 1000,
        client_flow: Flow::Recoverable,
        server_flow: Flow::Recoverable,
        credentials: Bytes::new(alloc),
        version: 1,
    }
}

/// How many of the messages fall to a sender.
#[tactic(auto, using(crate::proofs::Dealing::dealt_is))]
fn dealt(messages: u32, sender: u32) -> u64
    requires messages { messages ≤ 100000 }
    requires sender { (1 ≤ sender) × (sender ≤ 4) }
    ensures { result ≡ dealt messages sender }
{
    u64::from((messages + 4 - sender) / 4)
}

/// How many messages each sender has.
fn soak_messages(alloc: Global, messages: u32) -> Result<Counts, AllocError>
    requires { messages ≤ 100000 }
    ensures value { IfOk result (λ counts. counts ≡ soak_messages messages) }
    ensures range { IfOk result (λ counts. All IsCount counts) }
{
    let counts = [
        dealt(messages, 1),
        dealt(messages, 2),
        dealt(messages, 3),
        dealt(messages, 4),
    ];
    Counts::from_slice(alloc, &counts)
}

/// What the two ends send.
fn soak_load(alloc: Global, messages: u32) -> Result<Load, AllocError>
    requires { messages ≤ 100000 }
    ensures value { IfOk result (λ load. load ≡ soak_load messages) }
    ensures range { IfOk result IsLoadInRange }
{
    Ok(Load {
        messages: soak_messages(alloc, messages)?,
        desks: 3,
        initiator_version: 2,
        desk_version: 1,
        reference: 1_000_000,
    })
}

/// As many bursts as there are messages for, each with a cut behind it.
fn soak_steps(alloc: Global, messages: u32) -> Result<Steps, AllocError>
    requires { messages ≤ 100000 }
    ensures { IfOk result (λ steps. steps ≡ soak_steps messages) }
{
    let pairs = messages.div_ceil(BURST_OF_ALL);
    let steps = [BURST, Step::Cut].repeat(alloc, pairs as usize)?;
    Ok(Steps::from(steps))
}

/// The script of a soak of so many messages: four senders, to whom the messages are dealt out in turn, against three desks, over two
/// recoverable flows; all submit at once, and the connection is cut behind each burst.
///
/// # Errors
/// Want of memory.
pub fn soak_script(alloc: Global, messages: u32) -> Result<Script, AllocError>
    requires { (4 ≤ messages) × (messages ≤ 100000) }
    ensures value { IfOk result (λ script. script ≡ soak_script messages) }
    ensures valid { IfOk result IsScript }
{
    Ok(Script {
        link: soak_link(alloc),
        load: soak_load(alloc, messages)?,
        steps: soak_steps(alloc, messages)?,
    })
}
