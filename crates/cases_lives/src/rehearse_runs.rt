//! A rehearsal with desks, cuts and stops of both ends, at both versions of the session schema: whether each end had more lives than one, and what the desks were handed, as the journals that it
//! answers hold it. It shows that both ends run, and that no line is made from the script alone. What it has to print stands in `stdout`.

use cases_made::records;
use cmd_script::read_script;
use gw_rehearse::{Journals, Rehearsal, Watch, rehearse};
use jr_record::Record;
use std::alloc::Global;
use std::io;
use std::sync::Wait;
use std::thread::Threads;

/// Four senders of 25 orders each and three desks; each end is stopped once.
const SCRIPT: &[u8] = b"session = \"00112233-4455-6677-8899-aabbccddeeff\"
keepalive = 1000
client_flow = \"recoverable\"
server_flow = \"recoverable\"
senders = 4
messages = 25
desks = 3
initiator_version = 2
desk_version = 1
[[step]]
do = \"burst\"
count = 10
rounds = 20
[[step]]
do = \"cut\"
[[step]]
do = \"burst\"
count = 5
rounds = 10
[[step]]
do = \"stop\"
end = \"initiator\"
after = 7
pick = \"old\"
[[step]]
do = \"burst\"
count = 5
rounds = 10
[[step]]
do = \"stop\"
end = \"acceptor\"
after = 9
pick = \"kept\"
[[step]]
do = \"burst\"
count = 5
rounds = 10
[[step]]
do = \"cut\"
";

/// Tells nobody how far the rehearsal is.
#[derive(Drop)]
struct Unwatched;

impl Watch for Unwatched {
    fn at(&mut self, _done: u64, _of: u64) {}

    fn round(&mut self) {}

    fn over(&mut self) {}
}

/// The sender of an order and its number, as its identifier spells them behind the header.
fn order_of(payload: &[u8]) -> Option<(u64, u64)> {
    let (_header, rest) = payload.split_first_chunk::<10>()?;
    let (id, _others) = rest.split_first_chunk::<8>()?;
    let id = u64::from_le_bytes(*id);
    Some((id >> 32, id % (1 << 32)))
}

/// How many orders of each of four senders were applied, where those of each are numbered from 1 on, in order.
fn orders_in(inbox: &[Record]) -> Option<[u64; 4]> {
    let mut counts = [0u64; 4];
    for record in inbox {
        if let Record::Apply { payload, .. } = record {
            let (sender, number) = order_of(payload.as_slice())?;
            let count = counts.get_mut(sender.checked_sub(1)? as usize)?;
            if number != count.saturating_add(1) {
                return None;
            }
            *count = number;
        }
    }
    Some(counts)
}

/// What the desks of an acceptor were handed, which is what its inbox has applied.
fn handed(alloc: Global, acceptor: Journals) -> Option<[u64; 4]> {
    let Journals {
        outbox: _,
        inbox,
        senders: _,
        lives: _,
    } = acceptor;
    let records = records(alloc, inbox.into_journal().close())?;
    orders_in(records.as_slice())
}

/// The rehearsal by a script whose first line says which version of the session schema both ends speak.
fn rehearsed<R: Threads + Wait + Sync>(alloc: Global, line: &[u8], rt: &R) -> Option<Rehearsal> {
    let mut text = Vec::new(alloc);
    text.extend_from_slice(line).ok()?;
    text.extend_from_slice(SCRIPT).ok()?;
    let script = read_script(alloc, text.as_slice()).ok()?;
    rehearse(alloc, &script, &mut Unwatched, rt).ok()
}

/// Runs the rehearsal at one version, and prints it.
fn print_one<R: Threads + Wait + Sync + Print + AllocGlobal>(
    rt: &R,
    line: &[u8],
) -> io::Result<()> {
    let alloc = rt.alloc();
    let Some(
        Rehearsal {
            initiator,
            acceptor,
        },
    ) = rehearsed(alloc, line, rt)
    else {
        return rt.println("it came to no end");
    };
    let lives = [initiator.lives > 1, acceptor.lives > 1];
    let orders = handed(alloc, acceptor);
    println!(rt; "more lives than one: {lives:?}, handed {orders:?}")
}

/// Runs the rehearsal at both versions of the session schema, and prints it.
pub fn print<R: Threads + Wait + Sync + Print + AllocGlobal>(rt: &R) -> io::Result<()> {
    print_one(rt, b"session_version = 0\n")?;
    print_one(rt, b"session_version = 1\n")
}
