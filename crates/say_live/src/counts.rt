//! Which messages of this end a run has handed to a connection.

/// How many gaps are kept.
const GAPS: usize = 8;

/// Numbers in a row, from the first to the one before `behind`; none where that is not above the first.
#[derive(Clone, Copy)]
struct Gap {
    first: u64,
    behind: u64,
}

impl Gap {
    fn is_empty(self) -> bool {
        self.behind <= self.first
    }

    fn has(self, number: u64) -> bool {
        self.first <= number && number < self.behind
    }
}

/// Which of this end's messages a run has handed to a connection, each at least in part. One that is sent again counts once: so the numbers are
/// kept that were not handed over. On a flow without numbers none is sent again, and each that is handed over is another one.
#[derive(Clone, Copy)]
pub(crate) struct Sent {
    /// How many messages stood in OUTBOX as the run began.
    stood: u64,
    /// The number of the message that is handed over next, where the flow has numbers.
    next: Option<u64>,
    /// The number behind the greatest that was handed over, or stood there before.
    top: u64,
    /// The numbers below `top` that were not handed over, but for those that were forgotten.
    gaps: [Gap; GAPS],
    /// A number above all that were forgotten.
    forgotten: u64,
    /// How many were handed over of those that stood there before, and of those that came behind them.
    again: u64,
    new: u64,
    is_sure: bool,
}

impl Sent {
    /// Nothing is handed over.
    pub(crate) fn new() -> Sent {
        Sent {
            stood: 0,
            next: None,
            top: 1,
            gaps: [Gap {
                first: 0,
                behind: 0,
            }; GAPS],
            forgotten: 0,
            again: 0,
            new: 0,
            is_sure: true,
        }
    }

    /// The run begins with so many messages in OUTBOX.
    pub(crate) fn begin(&mut self, stood: u64) {
        self.stood = stood;
        self.top = stood.saturating_add(1);
        self.keep(Gap {
            first: 1,
            behind: self.top,
        });
    }

    /// A next number is announced.
    pub(crate) fn announce(&mut self, next: Option<u64>) {
        self.next = next;
    }

    /// A message is handed over.
    pub(crate) fn send(&mut self) {
        match self.next {
            Some(number) => {
                self.next = Some(number.saturating_add(1));
                self.count(number);
            }
            None => self.new = self.new.saturating_add(1),
        }
    }

    /// What is handed over cannot be followed any more.
    pub(crate) fn doubt(&mut self) {
        self.is_sure = false;
    }

    /// Counts the message of a number.
    fn count(&mut self, number: u64) {
        if number >= self.top {
            self.keep(Gap {
                first: self.top,
                behind: number,
            });
            self.top = number.saturating_add(1);
            self.new = self.new.saturating_add(1);
        } else if !self.fill(number) {
            // Whether one that was forgotten is handed over for the first time is not known.
            self.is_sure = self.is_sure && number >= self.forgotten;
        } else if number <= self.stood {
            self.again = self.again.saturating_add(1);
        } else {
            self.new = self.new.saturating_add(1);
        }
    }

    /// Takes a number out of the gap that has it, and says whether one has.
    fn fill(&mut self, number: u64) -> bool {
        for at in 0..GAPS {
            let gap = self.gaps[at];
            if gap.has(number) {
                self.gaps[at].behind = number;
                self.keep(Gap {
                    first: number.saturating_add(1),
                    behind: gap.behind,
                });
                return true;
            }
        }
        false
    }

    /// Keeps a gap; where there is no room for it, that with the lowest numbers is forgotten.
    fn keep(&mut self, gap: Gap) {
        if gap.is_empty() {
            return;
        }
        let mut lowest = 0usize;
        for at in 0..GAPS {
            if self.gaps[at].is_empty() {
                self.gaps[at] = gap;
                return;
            }
            if self.gaps[at].behind < self.gaps[lowest.min(GAPS - 1)].behind {
                lowest = at;
            }
        }
        let lowest = lowest.min(GAPS - 1);
        self.forgotten = self.forgotten.max(self.gaps[lowest].behind);
        self.gaps[lowest] = gap;
    }

    /// Whether the counts are exact.
    pub(crate) fn is_sure(&self) -> bool {
        self.is_sure
    }

    /// How many messages were handed over.
    pub(crate) fn sent(&self) -> u64 {
        self.again.saturating_add(self.new)
    }

    /// How many stood in OUTBOX as the run began, and were not handed over.
    pub(crate) fn stood(&self) -> u64 {
        self.stood.saturating_sub(self.again)
    }

    /// How many of an OUTBOX that has so many messages came behind these, and were not handed over.
    pub(crate) fn unsent(&self, entries: u64) -> u64 {
        entries.saturating_sub(self.stood).saturating_sub(self.new)
    }
}
