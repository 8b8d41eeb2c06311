//! What a turn tells beside its answer.

ghost use Rattle.std.specs.Prelude.{◌≡◌, ℕ, ◌+◌, [], ◌∷◌, ◌++◌, IfOk, OnOk, OnErr};

use gw_outside::{Bytes, Payloads};
use lists::List;
use std::alloc::{AllocError, Global};
use std::mem;

/// One piece of news.
#[derive(Drop)]
pub enum NewsItem {
    /// The peer's message of this number was applied: it stands in the inbox.
    Delivered { number: u64, payload: Bytes },
    /// The peer told that it did not apply these numbers of ours.
    NotApplied { from: u64, count: u64 },
}

/// What a turn delivered and was told, in order.
#[derive(Drop)]
pub struct News {
    items: Vec<NewsItem>,
}

impl News {
    ghost use Rattle.conn_turns.specs.News.{items_of, HasRoom, delivered_in};

    /// No news; it takes no memory until something is added.
    pub fn new(alloc: Global) -> News
        ensures { items_of result ≡ [] }
    {
        News {
            items: Vec::new(alloc),
        }
    }

    /// The items, in order.
    pub fn items(&self) -> &[NewsItem]
        ensures { result.now ≡ items_of self.now }
    {
        self.items.as_slice()
    }

    /// Forgets all.
    pub fn clear(&mut self)
        ensures { items_of self.new ≡ [] }
    {
        self.items.clear();
    }

    /// Makes room for so many more items.
    ///
    /// # Errors
    /// Want of memory.
    pub fn reserve(&mut self, count: usize) -> Result<(), AllocError>
        ensures same { items_of self.new ≡ items_of self.old }
        ensures room { OnOk result (HasRoom self.new count) }
    {
        self.items.reserve(count)
    }

    /// Adds an item at the end, for which there is room; there is room for one less then.
    pub fn push(&mut self, item: NewsItem)
        requires { HasRoom self.old 1 }
        ensures items { items_of self.new ≡ items_of self.old ++ item ∷ [] }
        ensures room { (count : ℕ) → HasRoom self.old (count + 1) → HasRoom self.new count }
    {
        match self.items.push(item) {
            Ok(()) => {}
            Err(_) => unreachable!(),
        }
    }

    /// Takes the messages that were delivered, in order, and forgets the rest. Their bytes are moved.
    ///
    /// # Errors
    /// Want of memory; then nothing changed.
    pub fn take_delivered(&mut self, alloc: Global) -> Result<Payloads, AllocError>
        ensures delivered { IfOk result (λ payloads. payloads ≡ delivered_in (items_of self.old)) }
        ensures taken { OnOk result (items_of self.new ≡ []) }
        ensures kept { OnErr result (items_of self.new ≡ items_of self.old) }
    {
        let mut payloads = Vec::with_capacity(alloc, self.items.len())?;
        let items = mem::replace(&mut self.items, Vec::new(alloc));
        for item in items {
            if let NewsItem::Delivered { payload, .. } = item {
                match payloads.push(payload) {
                    Ok(()) => {}
                    Err(_) => unreachable!(),
                }
            }
        }
        Ok(List::from(payloads))
    }
}
