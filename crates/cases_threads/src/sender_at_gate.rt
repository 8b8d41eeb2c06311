//! A sender submits messages through a gate while the connection fetches them, each in a thread. Then the mark is added, and
//! the program prints what the outbox has. It shows that the gate's contracts are enough for a caller, and runs them.

ghost use Rattle.std.specs.Prelude.{◌≡◌, ◌≢◌, ℕ, None, Some};
ghost use Rattle.gate_turn.specs.Places.{known};
ghost use Rattle.gate_turn.specs.Listed.{pass_at};
ghost use Rattle.gate_turn.specs.Calls.{IsFree};
ghost use Rattle.gate_senders.specs.Gate.{senders_of, IsPassAt, IsSenderAt, HasBackAt, MadeAt};

use crate::made::{Log, WIDE, formatted, opened};
use fixp_msgs::is_application;
use gate_senders::{Gate, Kept};
use gate_turn::{Pass, Passes};
use jr_kept::Outbox;
use std::sync::Wait;
use std::thread::Threads;
use std::{io, thread};

/// How many messages are submitted, and how often the connection fetches.
const MANY: u64 = 200;

/// The room of the disk, in bytes.
const ROOM: usize = 8192;

/// An application message of 8 bytes behind its encoding type.
const MESSAGE: [u8; 10] = [0xEB, 0x50, 0, 0, 7, 0, 0x64, 0, 1, 0];

/// Submits so many messages, and gives the pass back.
fn submit_all<R: Wait>(
    rt: &R,
    gate: &Gate<Log>,
    mut pass: Pass<Kept<Log>>,
    many: u64,
) -> Pass<Kept<Log>>
    requires own { IsSenderAt gate.now pass }
    requires free { IsFree pass }
    ensures own { IsPassAt gate.entry.now result }
    ensures free { IsFree result }
    ensures kept { ((known result).number ≡ (known pass).number) × ((known result).made ≡ (known pass).made) }
{
    let message = MESSAGE;
    if is_application(&message) {
        for _ in 0..many {
            let _ = gate.submit(&mut pass, &message, rt);
        }
    }
    pass
}

/// Fetches so often the entries from the first on, as far as they are there, and gives the pass back.
fn watch<R: Wait>(rt: &R, gate: &Gate<Log>, mut pass: Pass<Kept<Log>>, many: u64) -> Pass<Kept<Log>>
    requires own { IsPassAt gate.now pass }
    requires free { IsFree pass }
    ensures own { IsPassAt gate.entry.now result }
    ensures free { IsFree result }
    ensures kept { ((known result).number ≡ (known pass).number) × ((known result).made ≡ (known pass).made) }
{
    for _ in 0..many {
        let _ = gate.front(&mut pass);
        let _ = gate.fetch(&mut pass, 1, 2, rt);
    }
    pass
}

/// Adds the mark, and gives the pass back.
fn ended<R: Wait>(rt: &R, gate: &Gate<Log>, mut pass: Pass<Kept<Log>>) -> Pass<Kept<Log>>
    requires own { IsPassAt gate.now pass }
    requires free { IsFree pass }
    ensures own { IsPassAt gate.entry.now result }
    ensures free { IsFree result }
    ensures kept { ((known result).number ≡ (known pass).number) × ((known result).made ≡ (known pass).made) }
{
    let _ = gate.mine(&mut pass, rt);
    let _ = gate.finish(&mut pass, rt);
    let _ = gate.closed(&mut pass, 0, rt);
    pass
}

/// The pass of a number that the list has.
fn taken(gate: &Gate<Log>, passes: &mut Passes<Kept<Log>>, number: u16) -> Pass<Kept<Log>>
    requires back { HasBackAt gate.now passes.old number }
    ensures there { Some result ≡ pass_at passes.old number }
    ensures own { IsPassAt gate.now result }
    ensures free { IsFree result }
    ensures gone { pass_at passes.new number ≡ None }
    ensures others { (n : ℕ) → n ≢ number → pass_at passes.new n ≡ pass_at passes.old n }
{
    let Some(pass) = passes.take(number) else {
        unreachable!()
    };
    pass
}

/// The sender and the connection work at once, through the two passes that the gate was made with. The outbox comes out.
fn at_once<R: Threads + Wait + Sync>(
    rt: &R,
    gate: Gate<Log>,
    mut passes: Passes<Kept<Log>>,
) -> Outbox<Log>
    requires made { MadeAt gate passes 2 }
    requires senders { senders_of gate ≡ 1 }
{
    let first = taken(&gate, &mut passes, 1);
    let second = taken(&gate, &mut passes, 2);
    let shared = &gate;
    let (first, second) = thread::join(
        rt,
        move || -> Pass<Kept<Log>>
            requires { IsSenderAt shared.now first × IsFree first }
            ensures { IsPassAt shared.entry.now result × IsFree result × ((known result).number ≡ (known first).number) × ((known result).made ≡ (known first).made) }
        { submit_all(rt, shared, first, MANY) },
        move || -> Pass<Kept<Log>>
            requires { IsPassAt shared.now second × IsFree second }
            ensures { IsPassAt shared.entry.now result × IsFree result × ((known result).number ≡ (known second).number) × ((known result).made ≡ (known second).made) }
        { watch(rt, shared, second, MANY) },
    );
    let last = ended(rt, &gate, second);
    passes.give(first);
    passes.give(last);
    gate.close(passes)
}

/// Prints what the section shows.
pub fn print<R: Print + Threads + Wait + Sync + AllocGlobal>(rt: &R) -> io::Result<()> {
    let alloc = rt.alloc();
    let Some(disk) = formatted(alloc, ROOM) else {
        return println!(rt; "no disk");
    };
    let Some(outbox) = opened(alloc, disk, WIDE) else {
        return println!(rt; "no outbox");
    };
    let Ok((gate, passes)) = Gate::new(alloc, outbox, 1) else {
        return println!(rt; "want of memory");
    };
    let outbox = at_once(rt, gate, passes);
    println!(rt;
        "{} entries, of sender 1 {}, closed {}",
        outbox.front(),
        outbox.mine(1),
        outbox.closed()
    )
}
