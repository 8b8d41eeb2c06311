//! The lines on OUT: the news of a turn, and the end of a connection.

ghost use Rattle.std.specs.Prelude.{◌≡◌, ◌⊎◌, ◌≤◌, ◌++◌, [], OnOk, OnErr, IfErr};
ghost use Rattle.std.specs.Io.KnownBytes.{Appends};
ghost use Rattle.gw_outside.specs.Faults.{HasRisen, TakesFront};
ghost use Rattle.conn_turns.specs.News.{items_of};
ghost use Rattle.conn_lines.specs.Lines.{connection_line};
ghost use Rattle.conn_serve.specs.Lines.{news_line, news_lines};
ghost use Rattle.conn_door.specs.declared.answer.ServeFault.TheVariants as faults;

use conn_door::ServeFault;
use conn_lines::{Close, push_connection_line, push_deliver_line, push_not_applied_line};
use conn_turns::{News, NewsItem};
use gw_outside::{Sink, push_all};
use std::alloc::{AllocError, Global};

/// What a life tells on OUT: the news of the last turn, and room for their lines, which is used again.
#[derive(Drop)]
pub(crate) struct Teller {
    pub(crate) news: News,
    lines: Vec<u8>,
}

/// Adds the line of a piece of news.
fn push_item(lines: &mut Vec<u8>, item: &NewsItem) -> Result<(), AllocError>
    ensures added { OnOk result (lines.new.items ≡ lines.old.items ++ news_line item.now) }
{
    match item {
        NewsItem::Delivered { number, payload } => {
            push_deliver_line(lines, *number, payload.as_slice())
        }
        NewsItem::NotApplied { from, count } => push_not_applied_line(lines, *from, *count),
    }
}

/// Adds the lines of all news.
fn push_items(lines: &mut Vec<u8>, items: &[NewsItem]) -> Result<(), AllocError>
    ensures added { OnOk result (lines.new.items ≡ lines.old.items ++ news_lines items.now) }
{
    for item in items {
        push_item(lines, item)?;
    }
    Ok(())
}

impl Teller {
    /// Nothing is told yet.
    pub(crate) fn new(alloc: Global) -> Teller {
        Teller {
            news: News::new(alloc),
            lines: Vec::new(alloc),
        }
    }

    /// Tells the news of the last turn.
    pub(crate) fn tell_news<K: Sink>(&mut self, out: &mut K) -> Result<(), ServeFault>
        ensures told { OnOk result (Appends (K.taken out.old) (K.taken out.new) (news_lines (items_of self.old.news))) }
        ensures front { OnErr result (TakesFront (K.taken out.old) (K.taken out.new) (news_lines (items_of self.old.news))) }
        ensures same { self.new.news ≡ self.old.news }
        ensures never_falls { K.faults out.old ≤ K.faults out.new }
        ensures cause { IfErr result (λ fault. ((fault ≡ faults.Output) × HasRisen (K.faults out.old) (K.faults out.new)) ⊎ (fault ≡ faults.Memory)) }
    {
        self.lines.clear();
        if push_items(&mut self.lines, self.news.items()).is_err() {
            return Err(ServeFault::Memory);
        }
        push_lines(out, self.lines.as_slice())
    }

    /// Tells the end of the connection of this number, from 1 on.
    pub(crate) fn tell_close<K: Sink>(
        &mut self,
        out: &mut K,
        number: u64,
        close: Close,
    ) -> Result<(), ServeFault>
        ensures told { OnOk result (Appends (K.taken out.old) (K.taken out.new) (connection_line number close)) }
        ensures front { OnErr result (TakesFront (K.taken out.old) (K.taken out.new) (connection_line number close)) }
        ensures never_falls { K.faults out.old ≤ K.faults out.new }
        ensures cause { IfErr result (λ fault. ((fault ≡ faults.Output) × HasRisen (K.faults out.old) (K.faults out.new)) ⊎ (fault ≡ faults.Memory)) }
    {
        self.lines.clear();
        if push_connection_line(&mut self.lines, number, close).is_err() {
            return Err(ServeFault::Memory);
        }
        push_lines(out, self.lines.as_slice())
    }
}

/// Pushes lines to OUT.
fn push_lines<K: Sink>(out: &mut K, lines: &[u8]) -> Result<(), ServeFault>
    ensures told { OnOk result (Appends (K.taken out.old) (K.taken out.new) lines.now) }
    ensures front { OnErr result (TakesFront (K.taken out.old) (K.taken out.new) lines.now) }
    ensures never_falls { K.faults out.old ≤ K.faults out.new }
    ensures cause { IfErr result (λ fault. (fault ≡ faults.Output) × HasRisen (K.faults out.old) (K.faults out.new)) }
{
    match push_all(out, lines) {
        Ok(()) => Ok(()),
        Err(_) => Err(ServeFault::Output),
    }
}
