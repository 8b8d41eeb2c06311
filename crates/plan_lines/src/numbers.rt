//! The numbers of senders' next messages.

ghost use Rattle.std.specs.Prelude.{◌≡◌, ◌<◌, ◌^◌, ℕ};
ghost use Rattle.jr_record.specs.Records.{IsSender};
ghost use Rattle.plan_lines.specs.Lines.{first_of};
ghost use Rattle.plan_lines.specs.Progress.{Counts, number_in};

use crate::form::Form;

/// The number of the next message of each sender, from sender 1 on.
#[derive(Clone, Copy)]
pub(crate) struct Numbers {
    pub(crate) next: [u64; 16],
}

impl Numbers {
    /// The numbers of first messages.
    pub(crate) fn new(form: Form) -> Numbers
        ensures first { (sender : ℕ) → IsSender sender → number_in result sender ≡ first_of form sender }
        ensures small { (sender : ℕ) → IsSender sender → number_in result sender < 2 ^ 64 }
    {
        match form {
            Form::Plain => Numbers { next: [1; 16] },
            Form::Numbered(firsts) => Numbers { next: firsts },
        }
    }

    /// The number of the next message of a sender.
    pub(crate) fn of(&self, sender: u16) -> u64
        requires { IsSender sender }
        ensures { result ≡ number_in self.now sender }
    {
        self.next[sender as usize - 1]
    }

    /// Counts a message of a sender.
    pub(crate) fn count(&mut self, sender: u16)
        requires { IsSender sender }
        ensures { Counts self.old self.new sender }
    {
        let at = sender as usize - 1;
        self.next[at] = self.next[at].saturating_add(1);
    }
}
