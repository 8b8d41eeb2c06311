//! How an end writes messages at the end of its output.

ghost use Rattle.std.specs.Prelude.{◌≡◌, ◌+◌, ◌≤◌, ◌++◌, ◌∷◌, [], true, false, length, Some};
ghost use Rattle.std.specs.List.{AllByRecursion};
ghost use Rattle.fixp_msgs.specs.Canonical.{frame_bytes, IsWritable};
ghost use Rattle.fixp_replies.specs.Outgoing.{messages_of, outgoing_message, carries_credentials, frame_limit, place_limit, written_limit};
ghost use Rattle.fixp_machine.specs.Machine.{bytes_of, sent_at};
ghost use Rattle.fixp_machine.specs.Sound.{MayWrite};

use crate::messages::session_message;
use crate::output::Output;
use fixp_msgs::write;
use fixp_replies::{Outgoing, Written};
use fixp_shake::EndConfig;

/// The greatest message without credentials, in bytes.
const SMALL: usize = 64;

/// The greatest message, in bytes.
const LARGE: usize = 2112;

/// Whether a message carries the credentials.
fn carries_credentials(message: Outgoing) -> bool
    ensures { result ≡ carries_credentials message }
{
    matches!(
        message,
        Outgoing::Negotiate { .. } | Outgoing::Establish { .. }
    )
}

/// Writes a message without credentials.
fn write_small(config: &EndConfig, output: &mut Output, message: Outgoing)
    requires small { carries_credentials message ≡ false }
    requires writable { IsWritable (outgoing_message config.now message) }
    requires room { length output.old + 64 ≤ 5242880 }
    ensures bytes { output.new ≡ output.old ++ frame_bytes (outgoing_message config.now message) }
    ensures short { length output.new ≤ length output.old + 64 }
    ensures some { length output.old + 1 ≤ length output.new }
{
    let mut frame = [0u8; SMALL];
    let size = write(&session_message(config, message), &mut frame);
    output.append(&frame[..size]);
}

/// Writes a message that carries the credentials.
fn write_large(config: &EndConfig, output: &mut Output, message: Outgoing)
    requires large { carries_credentials message ≡ true }
    requires credentials { length config.now.credentials ≤ 2048 }
    requires writable { IsWritable (outgoing_message config.now message) }
    requires room { length output.old + 64 + length config.now.credentials ≤ 5242880 }
    ensures bytes { output.new ≡ output.old ++ frame_bytes (outgoing_message config.now message) }
    ensures short { length output.new ≤ length output.old + 64 + length config.now.credentials }
    ensures some { length output.old + 1 ≤ length output.new }
{
    let mut frame = [0u8; LARGE];
    let size = write(&session_message(config, message), &mut frame);
    output.append(&frame[..size]);
}

/// Writes a message, and gives the moment of the last frame written.
pub fn write_message(config: &EndConfig, output: &mut Output, message: Outgoing)
    requires credentials { length config.now.credentials ≤ 2048 }
    requires writable { IsWritable (outgoing_message config.now message) }
    requires room { length output.old + frame_limit config.now message ≤ 5242880 }
    ensures bytes { output.new ≡ output.old ++ frame_bytes (outgoing_message config.now message) }
    ensures short { length output.new ≤ length output.old + frame_limit config.now message }
    ensures some { length output.old + 1 ≤ length output.new }
{
    if carries_credentials(message) {
        write_large(config, output, message);
    } else {
        write_small(config, output, message);
    }
}

/// Writes the message of one place at the moment `now`, if there is one, and keeps the moment of the last frame written.
pub fn write_place(
    config: &EndConfig,
    output: &mut Output,
    last_sent: &mut u64,
    place: &Option<Outgoing>,
    now: u64,
)
    requires credentials { length config.now.credentials ≤ 2048 }
    requires writes { AllByRecursion (MayWrite config.now) (messages_of config.now (place.now ∷ [])) }
    requires room { length output.old + place_limit config.now place.now ≤ 5242880 }
    ensures bytes { output.new ≡ output.old ++ bytes_of (messages_of config.now (place.now ∷ [])) }
    ensures sent { last_sent.new ≡ sent_at last_sent.old (bytes_of (messages_of config.now (place.now ∷ []))) now }
    ensures within { last_sent.old ≤ now → last_sent.new ≤ now }
    ensures short { length output.new ≤ length output.old + place_limit config.now place.now }
{
    if let Some(message) = place {
        write_message(config, output, *message);
        *last_sent = now;
    }
}

/// Writes the messages of a reply, in order, at the moment `now`, and keeps the moment of the last frame written.
pub fn write_reply(
    config: &EndConfig,
    output: &mut Output,
    last_sent: &mut u64,
    written: &Written,
    now: u64,
)
    requires credentials { length config.now.credentials ≤ 2048 }
    requires writes { AllByRecursion (MayWrite config.now) (messages_of config.now written.now) }
    requires room { length output.old + written_limit config.now written.now ≤ 5242880 }
    ensures bytes { output.new ≡ output.old ++ bytes_of (messages_of config.now written.now) }
    ensures sent { last_sent.new ≡ sent_at last_sent.old (bytes_of (messages_of config.now written.now)) now }
    ensures within { last_sent.old ≤ now → last_sent.new ≤ now }
    ensures short { length output.new ≤ length output.old + written_limit config.now written.now }
{
    let [first, second, third] = written;
    write_place(config, output, last_sent, first, now);
    write_place(config, output, last_sent, second, now);
    write_place(config, output, last_sent, third, now);
}
