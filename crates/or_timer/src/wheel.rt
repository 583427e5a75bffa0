ghost use Rattle.std.specs.Prelude.{◌≡◌, ◌≢◌, ◌∷◌, [], length, is_some, IfSome, IfNone, IfOk, OnOk, OnErr};
ghost use Rattle.std.specs.declared.option.Option.TheVariants.{None, Some};
ghost use Rattle.or_timer.specs.Deadlines.{deadline_in, with_deadline, without_deadline, due, after_due, keys_until};

use or_base::{Key, NoMemory};
use std::alloc::Global;
use std::collections::{BTreeMap, BTreeSet};
use std::marker::Model;

/// The deadlines of keys, each a number of milliseconds. Contracts see a list of keys with their deadlines.
#[derive(Drop)]
pub struct Wheel {
    deadlines: BTreeMap<Key, u128>,
    // each deadline with its key, in the order in which they are due
    timers: BTreeSet<(u128, Key)>,
    alloc: Global,
}

impl Model for Wheel {
    ghost use Rattle.std.specs.Prelude.{ℕ, List};
    ghost use Rattle.or_timer.specs.Deadlines.{AreTimersOf};

    ghost Value = { List (List ℕ × ℕ) };

    ghost view = { λ wheel. wheel.deadlines.entries };

    ghost invariant = { λ wheel. AreTimersOf wheel.deadlines.entries wheel.timers.keys };
}

/// How many timers there are up to the moment `now`.
fn count_until(timers: &BTreeSet<(u128, Key)>, now: u64) -> usize
    ensures { result ≡ length (keys_until now timers.now.keys) }
{
    let mut count = 0;
    for timer in timers.iter() {
        if u128::from(now) < timer.0 {
            break;
        }
        count += 1;
    }
    count
}

/// Writes another deadline over the key's.
#[tactic(auto, using(crate::proofs::Entries::insert_found))]
fn write_over(deadlines: &mut BTreeMap<Key, u128>, key: &Key, deadline: u128)
    ensures { IfSome (deadline_in deadlines.old.entries key.now) (λ old. deadlines.new.entries ≡ with_deadline deadlines.old.entries key.now deadline) }
{
    if let Some(old) = deadlines.get_mut(key) {
        *old = deadline;
    }
}

impl Wheel {
    /// No key has a deadline.
    pub fn new(alloc: Global) -> Wheel
        ensures { result ≡ [] }
    {
        Wheel {
            deadlines: BTreeMap::new(alloc),
            timers: BTreeSet::new(alloc),
            alloc,
        }
    }

    /// Gives a key without a deadline this one.
    fn add(&mut self, key: Key, deadline: u128) -> Result<(), NoMemory>
        requires { deadline_in self.old key ≡ None }
        ensures ok { OnOk result (self.new ≡ with_deadline self.old key deadline) }
        ensures err { OnErr result (self.new ≡ self.old) }
    {
        let again = key.copied()?;
        let _is_new = self.timers.insert((deadline, again))?;
        match self.deadlines.insert(key, deadline) {
            Ok(_) => Ok(()),
            Err(refused) => {
                let (key, deadline) = refused.value;
                let _was_there = self.timers.remove(&(deadline, key));
                Err(NoMemory)
            }
        }
    }

    /// Gives a key whose deadline is `old` another one.
    fn replace(&mut self, key: Key, old: u128, deadline: u128) -> Result<(), NoMemory>
        requires known { deadline_in self.old key ≡ Some old }
        requires other { old ≢ deadline }
        ensures ok { OnOk result (self.new ≡ with_deadline self.old key deadline) }
        ensures err { OnErr result (self.new ≡ self.old) }
    {
        let again = key.copied()?;
        let _is_new = self.timers.insert((deadline, again))?;
        let timer = (old, key);
        let _was_there = self.timers.remove(&timer);
        write_over(&mut self.deadlines, &timer.1, deadline);
        Ok(())
    }

    /// Gives the key this deadline, in milliseconds, in place of one that it had. Where memory runs out nothing changes.
    pub fn set(&mut self, key: Key, deadline: u128) -> Result<(), NoMemory>
        ensures ok { OnOk result (self.new ≡ with_deadline self.old key deadline) }
        ensures err { OnErr result (self.new ≡ self.old) }
    {
        match self.deadlines.get(&key) {
            None => self.add(key, deadline),
            Some(old) => {
                let old = *old;
                if old == deadline {
                    Ok(())
                } else {
                    self.replace(key, old, deadline)
                }
            }
        }
    }

    /// Takes the key's deadline away, and tells whether it had one. It takes no memory.
    pub fn cancel(&mut self, key: &Key) -> bool
        ensures answer { result ≡ is_some (deadline_in self.old key.now) }
        ensures state { self.new ≡ without_deadline self.old key.now }
    {
        match self.deadlines.remove_entry(key) {
            Some((key, deadline)) => {
                let _was_there = self.timers.remove(&(deadline, key));
                true
            }
            None => false,
        }
    }

    /// How many keys have a deadline of at most `now`, a moment in milliseconds. It takes no memory, and goes through these
    /// keys alone.
    pub fn count_due(&self, now: u64) -> usize
        ensures { result ≡ length (due self.now now) }
    {
        count_until(&self.timers, now)
    }

    /// Takes the key that is due first, if its deadline is at most `now`.
    fn take_first(&mut self, now: u64) -> Option<Key>
        ensures first { IfSome result (λ key. due self.old now ≡ key ∷ due self.new now) }
        ensures left { IfSome result (λ key. after_due self.new now ≡ after_due self.old now) }
        ensures none { IfNone result (due self.old now ≡ []) }
        ensures all_left { IfNone result (self.new ≡ after_due self.old now) }
    {
        match self.timers.first() {
            None => return None,
            Some(timer) => {
                if timer.0 > u128::from(now) {
                    return None;
                }
            }
        }
        let (_, key) = self.timers.pop_first()?;
        let _deadline = self.deadlines.remove(&key);
        Some(key)
    }

    /// Takes the keys whose deadline is at most `now`, a moment in milliseconds, by deadline and then by key. Where memory
    /// runs out nothing changes.
    pub fn due(&mut self, now: u64) -> Result<Vec<Key>, NoMemory>
        ensures keys { IfOk result (λ keys. keys.items ≡ due self.old now) }
        ensures left { OnOk result (self.new ≡ after_due self.old now) }
        ensures err { OnErr result (self.new ≡ self.old) }
    {
        let mut found = Vec::new(self.alloc);
        found.reserve(self.count_due(now))?;
        while let Some(key) = self.take_first(now) {
            found.push_reserved(key);
        }
        Ok(found)
    }

    /// Takes every deadline away. It takes no memory.
    pub fn clear(&mut self)
        ensures { self.new ≡ [] }
    {
        self.deadlines.clear();
        self.timers.clear();
    }
}
