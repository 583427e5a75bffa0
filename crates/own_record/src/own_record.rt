ghost use Rattle.std.specs.Prelude.{◌≡◌, ◌++◌, OnOk, IfOk};

use or_actor::{Outbox, STORE_PORT};
use or_base::{Bytes, Item, Key, NoMemory};

/// A record that a module of a node has its node's store own.
#[derive(Drop)]
pub struct OwnRecord {
    pub key: Key,
    /// The lifetime with which the store owns it, in milliseconds.
    pub ttl: Option<u64>,
    /// The text that the store was handed last.
    pub last: Option<Bytes>,
}

impl OwnRecord {
    ghost use Rattle.or_base.specs.declared.item.Item.TheVariants.{Persist};
    ghost use Rattle.own_record.specs.OwnRecord.{unsent, is_due, with_text, handed_over};

    /// A record of which nothing was handed over. It takes no memory.
    pub fn unsent(key: Key, ttl: Option<u64>) -> OwnRecord
        ensures { result ≡ unsent key ttl }
    {
        let last = None;
        OwnRecord { key, ttl, last }
    }

    /// The store has to be handed this text.
    fn is_due(&self, text: &Bytes, is_empty: bool) -> bool
        ensures { result ≡ is_due self.now.last text.now is_empty }
    {
        match &self.last {
            Some(last) => text.as_slice() != last.as_slice(),
            None => !is_empty,
        }
    }

    /// What the store is handed with this text.
    fn item(&self, text: &Bytes) -> Result<Item, NoMemory>
        ensures { IfOk result (λ item. item ≡ Persist self.now.key text.now self.now.ttl) }
    {
        let key = self.key.copied()?;
        let value = text.copied()?;
        let ttl = self.ttl;
        Ok(Item::Persist { key, value, ttl })
    }

    /// The text of the record is this from now on, and `is_empty` tells whether it says nothing: the store is handed it,
    /// where it has to be.
    pub fn hand_over(
        &mut self,
        text: Bytes,
        is_empty: bool,
        out: &mut Outbox,
    ) -> Result<(), NoMemory>
        ensures record { OnOk result (self.new ≡ with_text self.old text is_empty) }
        ensures sent { OnOk result (out.new ≡ out.old ++ handed_over self.old text is_empty) }
    {
        if self.is_due(&text, is_empty) {
            out.send(STORE_PORT, self.item(&text)?)?;
            self.last = Some(text);
        }
        Ok(())
    }
}
