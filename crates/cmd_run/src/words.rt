//! The words of the command line.

ghost use Rattle.std.specs.Prelude.{◌≡◌};
ghost use Rattle.cmd_run.specs.Words.{before_four, before_three, before_two, bytes_of, command_of};

use cmd_codec::Shown;

/// A command.
#[derive(Clone, Copy)]
pub enum Command {
    /// `answer CONFIG INPUT WIRE OUT`
    Answer,
    /// `check CONFIG OUT`
    Check,
    /// `decode CONFIG INPUT OUT`, or with `--names` behind the first word
    Decode(Shown),
    /// `encode CONFIG INPUT WIRE`
    Encode,
    /// `format OUTBOX INBOX`
    Format,
    /// `journal OUTBOX INBOX OUT`
    Journal,
    /// `migrate OLD NEW`
    Migrate,
}

/// The command that this word names in front of two files.
fn before_two(word: &str) -> Option<Command>
    ensures { result ≡ before_two word.now }
{
    match word {
        "check" => Some(Command::Check),
        "format" => Some(Command::Format),
        "migrate" => Some(Command::Migrate),
        _ => None,
    }
}

/// The command that this word names in front of three files.
fn before_three(word: &str) -> Option<Command>
    ensures { result ≡ before_three word.now }
{
    match word {
        "decode" => Some(Command::Decode(Shown::Numbers)),
        "encode" => Some(Command::Encode),
        "journal" => Some(Command::Journal),
        _ => None,
    }
}

/// The command that these words name in front of three files, or the first of them in front of four.
fn before_four(word: &str, second: &str) -> Option<Command>
    ensures { result ≡ before_four word.now second.now }
{
    match word {
        "answer" => Some(Command::Answer),
        "decode" if second == "--names" => Some(Command::Decode(Shown::Names)),
        _ => None,
    }
}

/// The command of a listed form of words. How many files stand behind the word is told first, so that each word is looked at once.
pub fn command_of(words: &[String]) -> Option<Command>
    ensures { result ≡ command_of (bytes_of words.now) }
{
    match words {
        [command, _, _] => before_two(command.as_str()),
        [command, _, _, _] => before_three(command.as_str()),
        [command, second, _, _, _] => before_four(command.as_str(), second.as_str()),
        _ => None,
    }
}
