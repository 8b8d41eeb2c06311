//! The outputs of a command are begun before its work: a file is emptied then, and one that cannot be made tells so,
//! also where nothing is written behind it.

ghost use Rattle.std.specs.Prelude.{[]};
ghost use Rattle.std.specs.Io.KnownBytes.{Appends};
ghost use Rattle.gw_outside.specs.Faults.{HasCause};

use gw_outside::{Failed, Sink};

/// Begins an output by a push of nothing.
///
/// # Errors
/// `Failed` where the sink failed.
pub fn begin<K: Sink>(sink: &mut K) -> Result<(), Failed>
    ensures nothing { Appends (K.taken sink.old) (K.taken sink.new) [] }
    ensures cause { HasCause (K.faults sink.old) (K.faults sink.new) result }
{
    sink.push(&[])?;
    Ok(())
}
