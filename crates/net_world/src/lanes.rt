//! The items that wait on every lane.

ghost use Rattle.std.specs.Prelude.{◌≡◌, ◌<◌, [], ◌∷◌, ◌++◌, IsTrue, not, replicate, drop, length, slice_index_or, slice_get, slice_set, IfOk, OnOk, OnErr};
ghost use Rattle.std.specs.Option.{option_map};
ghost use Rattle.net_world.specs.Busy.{AreBusy, busy_lanes, with_busy, without_busy};

use crate::lane::Lane;
use or_base::{NoMemory, Stamped};
use std::alloc::Global;
use std::collections::BTreeSet;
use std::marker::Model;

/// A lane, and how many items wait on it.
#[derive(Clone, Copy, Debug, PartialEq, Eq)]
pub struct Busy {
    pub lane: u32,
    pub count: usize,
}

/// The lanes by their numbers, and the numbers of those on which an item waits. Contracts see a list of lanes, each of
/// which is the list of its items, the oldest first.
#[derive(Drop)]
pub struct Lanes {
    lanes: Vec<Lane>,
    busy: BTreeSet<u32>,
    alloc: Global,
}

impl Model for Lanes {
    ghost use Rattle.std.specs.Prelude.{List};
    ghost use Rattle.or_base.specs.declared.item.Stamped.{Stamped};
    ghost use Rattle.net_world.specs.Busy.{AreBusy};

    ghost Value = { List (List Stamped) };

    ghost view = { λ l. l.lanes.items };

    ghost invariant = { λ l. AreBusy l.lanes.items l.busy.keys };
}

/// So many lanes on which no item waits.
fn empty_lanes(alloc: Global, count: usize) -> Result<Vec<Lane>, NoMemory>
    ensures { IfOk result (λ lanes. lanes.items ≡ replicate count []) }
{
    let mut lanes = Vec::new(alloc);
    for _lane in 0..count {
        lanes.push(Lane::new(alloc))?;
    }
    Ok(lanes)
}

/// Counts a lane among those on which an item waits, where none did so far.
fn mark(busy: &mut BTreeSet<u32>, lane: u32, was_empty: bool) -> Result<(), NoMemory>
    ensures ok { OnOk result (busy.new.keys ≡ with_busy was_empty lane busy.old.keys) }
    ensures err { OnErr result (busy.new.keys ≡ busy.old.keys) }
{
    if was_empty {
        let _is_new = busy.insert(lane)?;
    }
    Ok(())
}

/// Counts it no longer, where no item waits on it now.
fn unmark(busy: &mut BTreeSet<u32>, lane: u32, is_empty: bool)
    ensures { busy.new.keys ≡ without_busy is_empty lane busy.old.keys }
{
    if is_empty {
        let _was_busy = busy.remove(&lane);
    }
}

/// The lanes on which an item waits, in order, with how many do.
fn busy_of(alloc: Global, lanes: &[Lane], busy: &BTreeSet<u32>) -> Result<Vec<Busy>, NoMemory>
    requires { AreBusy lanes.now busy.now.keys }
    ensures { IfOk result (λ found. found.items ≡ busy_lanes lanes.now) }
{
    let mut found = Vec::new(alloc);
    for lane in busy.iter() {
        found.push(Busy {
            lane: *lane,
            count: lanes[*lane as usize].len(),
        })?;
    }
    Ok(found)
}

impl Lanes {
    ghost use Rattle.net_record.specs.World.{is_empty, put};
    ghost use Rattle.std.specs.List.{list_all};

    /// So many lanes on which no item waits.
    pub fn new(alloc: Global, count: usize) -> Result<Lanes, NoMemory>
        ensures { IfOk result (λ lanes. lanes ≡ replicate count []) }
    {
        Ok(Lanes {
            lanes: empty_lanes(alloc, count)?,
            busy: BTreeSet::new(alloc),
            alloc,
        })
    }

    /// No item waits on the lane, or there is no such lane.
    pub fn is_lane_empty(&self, lane: usize) -> bool
        ensures { result ≡ is_empty (slice_index_or self.now lane []) }
    {
        match self.lanes.as_slice().get(lane) {
            Some(items) => items.is_empty(),
            None => true,
        }
    }

    /// The item that waits longest on the lane, if there is such a lane and such an item. It takes no memory.
    pub fn front(&self, lane: usize) -> Option<&Stamped>
        ensures { option_map (λ item. item.now) result ≡ slice_get (slice_index_or self.now lane []) 0 }
    {
        match self.lanes.as_slice().get(lane) {
            Some(items) => items.front(),
            None => None,
        }
    }

    /// No item waits.
    pub fn are_empty(&self) -> bool
        ensures { result ≡ list_all is_empty self.now }
    {
        self.busy.is_empty()
    }

    /// Takes the oldest item of a lane.
    #[tactic(auto, using(crate::proofs::Busied::marking))]
    pub fn take(&mut self, lane: u32) -> Stamped
        requires { IsTrue (not (is_empty (slice_index_or self.old lane []))) }
        ensures front { slice_index_or self.old lane [] ≡ result ∷ drop 1 (slice_index_or self.old lane []) }
        ensures left { self.new ≡ slice_set self.old lane (drop 1 (slice_index_or self.old lane [])) }
    {
        let items = &mut self.lanes[lane as usize];
        let taken = items.take();
        let is_empty = items.is_empty();
        unmark(&mut self.busy, lane, is_empty);
        taken
    }

    /// The item waits behind the others of its lane.
    #[tactic(auto, using(crate::proofs::Busied::marking))]
    fn put_on(&mut self, lane: u32, item: Stamped) -> Result<(), NoMemory>
        requires { lane < length self.old }
        ensures ok { OnOk result (self.new ≡ slice_set self.old lane (slice_index_or self.old lane [] ++ item ∷ [])) }
        ensures len { length self.new ≡ length self.old }
        ensures err { OnErr result (self.new ≡ self.old) }
    {
        let was_empty = self.is_lane_empty(lane as usize);
        mark(&mut self.busy, lane, was_empty)?;
        let items = &mut self.lanes[lane as usize];
        if let Err(full) = items.put(item) {
            unmark(&mut self.busy, lane, was_empty);
            return Err(full);
        }
        Ok(())
    }

    /// Puts an item on a lane, or on none.
    pub fn put(&mut self, lane: Option<u32>, item: Stamped) -> Result<(), NoMemory>
        ensures ok { OnOk result (self.new ≡ put self.old lane item) }
        ensures len { length self.new ≡ length self.old }
        ensures err { OnErr result (self.new ≡ self.old) }
    {
        if let Some(lane) = lane {
            if (lane as usize) < self.lanes.len() {
                self.put_on(lane, item)?;
            }
        }
        Ok(())
    }

    /// The lanes on which an item waits, in order.
    pub fn busy_lanes(&self) -> Result<Vec<Busy>, NoMemory>
        ensures { IfOk result (λ found. found.items ≡ busy_lanes self.now) }
    {
        busy_of(self.alloc, self.lanes.as_slice(), &self.busy)
    }
}
