//! Two calls beside each other, the second of which changes a value. A closure that itself holds a `&mut` to what has many type parameters is not
//! to be had in such a call, so the value is handed to it.

ghost use Rattle.std.specs.Fn.{CalledAtMut};
ghost use Rattle.conn_serve.specs.Together.{TakesAtMut};

use std::thread::{Threads, join_mut};

/// Calls `call` with the value. Apart from the closure below, whose own proof a call with a `&mut` is not part of.
fn call_with<L, G: FnMut(&mut L) -> B, B>(call: &mut G, value: &mut L) -> B
    requires { TakesAtMut G.FnMut call.old value.old }
    ensures { CalledAtMut G.FnMut call.old value.old result call.new value.new }
{
    call(value)
}

/// Calls `one` in a thread, where one can be made, and beside it `two` with the value in this one. Answers what both gave.
pub fn beside<R: Threads, F: FnMut() -> A + Send, L, G: FnMut(&mut L) -> B, A: Send, B>(
    rt: &R,
    one: &mut F,
    value: &mut L,
    two: &mut G,
) -> (A, B)
    requires one { F.pre one.old }
    requires two { TakesAtMut G.FnMut two.old value.old }
    ensures one { F.step one.old result.0 one.new }
    ensures two { CalledAtMut G.FnMut two.old value.old result.1 two.new value.new }
{
    join_mut(
        rt,
        one,
        &mut || -> B
            requires { TakesAtMut G.FnMut two.now value.now }
            ensures { CalledAtMut G.FnMut two.entry.now value.entry.now result two.exit.now value.exit.now }
        { call_with(two, value) },
    )
}
