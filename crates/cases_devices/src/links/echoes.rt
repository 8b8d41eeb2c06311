//! The generic echo at a tape and at both ends of a pipe. What becomes of these is known exactly.

ghost use Rattle.std.specs.Prelude.{◌≡◌, [], ◌<◌, ◌++◌, length, Ok};
ghost use Rattle.gw_links.specs.declared.echoing.Echoed.TheVariants.{Idle};

use gw_link_fakes::{MemTape, Pipe};
use gw_links::{Echoed, echo};
use gw_outside::Failed;

/// An echo over a tape: where it ends with nothing left, the tape took all that it had left.
pub fn echo_tape(tape: &mut MemTape, piece: &mut [u8]) -> Result<Echoed, Failed>
    requires { 0 < length piece.old }
    ensures taken { result ≡ Ok Idle → tape.new.taken ≡ tape.old.taken ++ tape.old.left }
    ensures given { result ≡ Ok Idle → tape.new.given ≡ tape.old.given ++ tape.old.left }
    ensures left { result ≡ Ok Idle → tape.new.left ≡ [] }
{
    echo(tape, piece, u64::MAX)
}

/// An echo at the left end of a pipe: where it ends with nothing waiting, all that waited is under way to the right.
pub fn echo_left(pipe: &mut Pipe, piece: &mut [u8]) -> Result<Echoed, Failed>
    requires { 0 < length piece.old }
    ensures taken { result ≡ Ok Idle → pipe.new.to_right ≡ pipe.old.to_right ++ pipe.old.to_left }
    ensures left { result ≡ Ok Idle → pipe.new.to_left ≡ [] }
    ensures cut { pipe.new.is_cut ≡ pipe.old.is_cut }
{
    let mut end = pipe.left();
    echo(&mut end, piece, u64::MAX)
}

/// An echo at the right end of a pipe, likewise.
pub fn echo_right(pipe: &mut Pipe, piece: &mut [u8]) -> Result<Echoed, Failed>
    requires { 0 < length piece.old }
    ensures taken { result ≡ Ok Idle → pipe.new.to_left ≡ pipe.old.to_left ++ pipe.old.to_right }
    ensures left { result ≡ Ok Idle → pipe.new.to_right ≡ [] }
    ensures cut { pipe.new.is_cut ≡ pipe.old.is_cut }
{
    let mut end = pipe.right();
    echo(&mut end, piece, u64::MAX)
}
