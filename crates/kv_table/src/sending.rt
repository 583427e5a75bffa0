ghost use Rattle.std.specs.Prelude.{◌≡◌, ◌++◌, IfOk, OnOk};
ghost use Rattle.or_base.specs.Journal.{holds};
ghost use Rattle.kv_table.specs.Sending.{pair_with, sent_of, sent_pairs, is_withheld, withholds, withheld_count};

use crate::table::KvTable;
use kv_value::{Sent, sent_ttl};
use or_base::{Key, KvValue, NoMemory, Pair};

/// The pair of the key and the value, with another lifetime.
fn pair_for(key: &Key, value: &KvValue, ttl: Option<u64>) -> Result<Pair, NoMemory>
    ensures { IfOk result (λ pair. pair ≡ record { key = key.now; value = record value.now { ttl = ttl } }) }
{
    Ok(Pair {
        key: key.copied()?,
        value: KvValue {
            version: value.version,
            originator: value.originator.copied()?,
            value: value.value.copied()?,
            ttl,
            ttl_version: value.ttl_version,
        },
    })
}

/// Appends the pair with the lifetime with which it is sent, if it is sent.
fn add_with(pairs: &mut Vec<Pair>, key: &Key, value: &KvValue, sent: Sent) -> Result<(), NoMemory>
    ensures { OnOk result (pairs.new.items ≡ pairs.old.items ++ pair_with key.now value.now sent) }
{
    match sent {
        Sent::Forever => pairs.push(pair_for(key, value, None)?)?,
        Sent::Left(ttl) => pairs.push(pair_for(key, value, Some(ttl))?)?,
        Sent::Withheld => {}
    }
    Ok(())
}

/// Whether a value is withheld.
fn is_withheld(sent: Sent) -> bool
    ensures { result ≡ is_withheld sent }
{
    match sent {
        Sent::Withheld => true,
        _other => false,
    }
}

impl KvTable {
    /// Appends what is sent of what is held under the key.
    fn add_pair(&self, pairs: &mut Vec<Pair>, key: &Key, now: u64) -> Result<(), NoMemory>
        ensures { OnOk result (pairs.new.items ≡ pairs.old.items ++ sent_of key.now (holds self.now key.now) now) }
    {
        if let Some(held) = self.get(key) {
            let sent = sent_ttl(held.value.ttl, held.merged_at, now);
            add_with(pairs, key, held.value, sent)?;
        }
        Ok(())
    }

    /// What is sent of the keys at the moment `now` in milliseconds, in their order: what is held under each, with the
    /// lifetime with which it is sent. A key that isn't held, or is withheld, gives nothing.
    pub fn sent_pairs(&self, now: u64, keys: &[Key]) -> Result<Vec<Pair>, NoMemory>
        ensures { IfOk result (λ pairs. pairs.items ≡ sent_pairs self.now now keys.now) }
    {
        let mut pairs = Vec::with_capacity(self.alloc(), keys.len())?;
        for key in keys {
            self.add_pair(&mut pairs, key, now)?;
        }
        Ok(pairs)
    }

    /// Whether something is held under the key whose lifetime is too short for it to be sent.
    fn withholds(&self, key: &Key, now: u64) -> bool
        ensures { result ≡ withholds (holds self.now key.now) now }
    {
        match self.get(key) {
            Some(held) => is_withheld(sent_ttl(held.value.ttl, held.merged_at, now)),
            None => false,
        }
    }

    /// How many of the keys are held and not sent at the moment `now`. It takes no memory.
    #[tactic(auto, unfolding(crate::specs::Sending::withheld_count))]
    pub fn withheld_count(&self, now: u64, keys: &[Key]) -> u64
        ensures { result ≡ withheld_count self.now now keys.now }
    {
        let mut count = 0;
        for key in keys {
            if self.withholds(key, now) {
                count += 1;
            }
        }
        count
    }
}
