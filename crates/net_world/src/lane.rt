ghost use Rattle.std.specs.Prelude.{◌≡◌, [], ◌∷◌, ◌++◌, ◌<◌, length, slice_get, OnOk, OnErr};
ghost use Rattle.std.specs.Option.{option_map};

use or_base::{NoMemory, Stamped};
use std::alloc::Global;
use std::collections::VecDeque;
use std::marker::Model;

/// The items that wait for a reader. Contracts see them as a list, the oldest first.
#[derive(Drop)]
pub struct Lane {
    items: VecDeque<Stamped>,
}

impl Model for Lane {
    ghost use Rattle.std.specs.Prelude.{List};
    ghost use Rattle.or_base.specs.declared.item.Stamped.{Stamped};

    ghost Value = { List Stamped };

    ghost view = { λ lane. lane.items.items };
}

impl Lane {
    ghost use Rattle.net_record.specs.World.{is_empty};

    /// No item waits yet. It takes no memory.
    pub fn new(alloc: Global) -> Lane
        ensures { result ≡ [] }
    {
        Lane {
            items: VecDeque::new(alloc),
        }
    }

    /// How many items wait.
    pub fn len(&self) -> usize
        ensures { result ≡ length self.now }
    {
        self.items.len()
    }

    /// No item waits.
    pub fn is_empty(&self) -> bool
        ensures { result ≡ is_empty self.now }
    {
        self.items.is_empty()
    }

    /// The item that waits longest, if there is one. It takes no memory.
    pub fn front(&self) -> Option<&Stamped>
        ensures { option_map (λ item. item.now) result ≡ slice_get self.now 0 }
    {
        self.items.front()
    }

    /// The item waits behind the others. Out of memory the lane stays as it was.
    pub fn put(&mut self, item: Stamped) -> Result<(), NoMemory>
        ensures ok { OnOk result (self.new ≡ self.old ++ item ∷ []) }
        ensures err { OnErr result (self.new ≡ self.old) }
    {
        self.items.push_back(item)?;
        Ok(())
    }

    /// Takes the oldest item. It takes no memory.
    pub fn take(&mut self) -> Stamped
        requires { 0 < length self.old }
        ensures { self.old ≡ result ∷ self.new }
    {
        self.items.pop_front().unwrap()
    }
}
