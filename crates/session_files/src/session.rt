//! What the words of a session name.

ghost use Rattle.std.specs.Prelude.{◌≡◌, List, [], ◌∷◌, map, codes, string_bytes, IfSome, IfNone};
ghost use Rattle.session_files.specs.Seen.{file_seen, seen};
ghost use Rattle.session_files.specs.Words.{SessionWords, Cannot, IsSession, Tells, role_of, others_of, journals_of};

use crate::standard::are_both_standard;
use cmd_config::Role;
use gw_real::{Named, STANDARD_OUTPUT};
use text_words::positive;

/// The file at a path, or the address, which is this to the command.
pub const fn named<'a>(role: &'static str, path: &'a str) -> Named<'a>
    ensures role { result.role.now ≡ role.now }
    ensures path { result.path.now ≡ path.now }
{
    Named { role, path }
}

/// What the words of a session name.
#[derive(Clone, Copy)]
pub struct Session<'a> {
    pub role: Role,
    pub address: &'a str,
    /// How many connections there may be.
    pub most: u16,
    pub config: Named<'a>,
    pub input: Named<'a>,
    pub outbox: Named<'a>,
    pub inbox: Named<'a>,
    pub out: Named<'a>,
    /// What is told what became of the lines of INPUT, where that is read as it comes.
    pub accepted: Option<Named<'a>>,
}

/// The role of a command, if it runs a session over connections.
pub fn role_of(command: &str) -> Option<Role>
    ensures { result ≡ role_of command.now }
{
    match command {
        "accept" => Some(Role::Acceptor),
        "connect" => Some(Role::Initiator),
        _ => None,
    }
}

impl<'a> Session<'a> {
    /// The session of words that are one of its four forms.
    pub fn of(words: &'a [String]) -> Option<Session<'a>>
        ensures found { IfSome result (λ s. IsSession (map string_bytes words.now) (seen s)) }
        ensures none { IfNone result ((s : SessionWords) → IsSession (map string_bytes words.now) s → ⊥) }
    {
        match words {
            [command, address, most, config, input, outbox, inbox, out] => {
                Session::by_plans(command, address, most, config, input, outbox, inbox, out)
            }
            [
                command,
                address,
                most,
                config,
                input,
                outbox,
                inbox,
                out,
                accepted,
            ] => {
                Session::by_plans(
                    command, address, most, config, input, outbox, inbox, out,
                )?.telling(accepted)
            }
            _ => None,
        }
    }

    /// The session of these words, whose INPUT is read before it begins.
    fn by_plans(
        command: &'a String,
        address: &'a String,
        most: &'a String,
        config: &'a String,
        input: &'a String,
        outbox: &'a String,
        inbox: &'a String,
        out: &'a String,
    ) -> Option<Session<'a>>
        ensures found { IfSome result (λ s. IsSession (string_bytes command.now ∷ string_bytes address.now ∷ string_bytes most.now ∷ string_bytes config.now
            ∷ string_bytes input.now ∷ string_bytes outbox.now ∷ string_bytes inbox.now ∷ string_bytes out.now ∷ []) (seen s)) }
        ensures none { IfNone result (Cannot (string_bytes command.now) (string_bytes most.now)) }
    {
        let role = role_of(command.as_str())?;
        let most = positive(most.as_str().as_bytes())?;
        Some(Session {
            role,
            address: address.as_str(),
            most,
            config: named("CONFIG", config.as_str()),
            input: named("INPUT", input.as_str()),
            outbox: named("OUTBOX", outbox.as_str()),
            inbox: named("INBOX", inbox.as_str()),
            out: named("OUT", out.as_str()),
            accepted: None,
        })
    }

    /// It, as one whose INPUT is read as it comes, where standard output does not stand for both OUT and ACCEPTED.
    fn telling(self, accepted: &'a String) -> Option<Session<'a>>
        ensures found { IfSome result (λ s. Tells (seen self.entry) (string_bytes accepted.now) (seen s)) }
        ensures none { IfNone result ((self.entry.out.path.now ≡ codes "-") × (string_bytes accepted.now ≡ codes "-")) }
    {
        let accepted = named("ACCEPTED", accepted.as_str());
        if are_both_standard(self.out, accepted) {
            return None;
        }
        Some(Session {
            accepted: Some(accepted),
            ..self
        })
    }

    /// The files that OUT and ACCEPTED must not be the same as, each but itself.
    pub fn others(&self) -> [Named<'a>; 7]
        ensures { map file_seen result ≡ others_of (seen self.now) }
    {
        [
            self.config,
            self.input.read_from(),
            self.out,
            self.accepted.unwrap_or(self.out),
            self.outbox,
            self.inbox,
            STANDARD_OUTPUT,
        ]
    }

    /// The files that a journal must not be the same as; OUT sees for itself that it is no journal.
    pub fn journals(&self) -> [Named<'a>; 3]
        ensures { map file_seen result ≡ journals_of (seen self.now) }
    {
        [self.outbox, self.inbox, STANDARD_OUTPUT]
    }
}
