ghost use Rattle.std.specs.Prelude.{◌≡◌, ◌+◌, ◌-◌, ◌<◌, ◌^◌, ◌++◌, IsTrue, slice_index_or, IfOk, OnOk, OnErr};

use crate::part::Part;
use crate::role::Role;
use crate::stamps::Stamps;
use or_actor::Outbox;
use or_base::{Kind, NoMemory, Stamped};
use std::alloc::Global;

/// An actor: what it is; its clock, which is the stamp of its last turn or what the last settle made of it; of how many
/// finished full syncs settles have told, where it is a store; and the stamps of the turns that made its entries.
#[derive(Drop)]
pub struct ActorState {
    pub part: Part,
    pub clock: u64,
    pub told: u64,
    pub made: Stamps,
}

impl ActorState {
    ghost use Rattle.or_actor.specs.Fits.{has_small_link, have_small_links};
    ghost use Rattle.or_actor.specs.Steps.{next_stamp, turn_made};
    ghost use Rattle.net_record.specs.Actors.{new_actor, actor_after, outputs_of, actor_after_settle, actor_without_question};
    ghost use Rattle.net_record.specs.Small.{HasSmallNumber};

    /// An actor as it starts, in a laboratory of this kind.
    pub fn new(alloc: Global, kind: Kind, role: &Role) -> Result<ActorState, NoMemory>
        requires { HasSmallNumber role.now }
        ensures { IfOk result (λ actor. actor ≡ new_actor kind role.now) }
    {
        Ok(ActorState {
            part: Part::new(alloc, kind, role)?,
            clock: 0,
            told: 0,
            made: Stamps::new(alloc),
        })
    }

    /// One turn with an item of a lane, in which a desk finds `at` entries, the last of which the turn with the stamp `found`
    /// made. What it sends goes into `out`, and the answer is its stamp.
    #[tactic(auto, unfolding(crate::specs::Actors::actor_after, crate::specs::Actors::outputs_of))]
    pub fn turn(
        &mut self,
        lane: u32,
        taken: Stamped,
        at: u64,
        found: u64,
        out: &mut Outbox,
    ) -> Result<u64, NoMemory>
        requires item { IsTrue (has_small_link taken.item) }
        requires at { at < 2 ^ 64 - 1 }
        requires stamp { taken.stamp + 1 < 2 ^ 64 }
        requires clock { self.old.clock + 1 < 2 ^ 64 }
        requires found { found + 1 < 2 ^ 64 }
        ensures state { OnOk result (self.new ≡ actor_after self.old (turn_made self.old.clock lane at taken found)) }
        ensures stamp { IfOk result (λ stamp. stamp ≡ next_stamp taken.stamp self.old.clock found) }
        ensures sent { OnOk result (out.new ≡ out.old ++ outputs_of self.old (turn_made self.old.clock lane at taken found)) }
        ensures small { OnOk result (IsTrue (have_small_links (outputs_of self.old (turn_made self.old.clock lane at taken found)))) }
        ensures err_clock { OnErr result (self.new.clock ≡ self.old.clock) }
        ensures err_made { OnErr result (self.new.made ≡ self.old.made) }
    {
        let stamp = taken.stamp.max(self.clock).max(found) + 1;
        let before = self.part.entries().len();
        self.part.take(lane, taken.item, at, out)?;
        let added = self.part.entries().len().saturating_sub(before);
        self.made.add(added, stamp)?;
        self.clock = stamp;
        Ok(stamp)
    }

    /// A settle, at which actors have so many entries, by their numbers, sets its clock and tells of all full syncs that it
    /// finished. It takes no memory.
    pub fn settle(&mut self, clock: u64, counts: &[u64])
        requires { (n : _) → slice_index_or counts.now n 0 < 2 ^ 64 - 1 }
        ensures { self.new ≡ actor_after_settle clock counts.now self.old }
    {
        self.told = self.part.finished_syncs();
        self.part.settle(counts);
        self.clock = clock;
    }

    /// Forgets its oldest question, where it is a desk that has one. It takes no memory.
    pub fn forget(&mut self)
        ensures { self.new ≡ actor_without_question self.old }
    {
        self.part.forget();
    }
}
