ghost use Rattle.std.specs.Prelude.{◌≡◌, ◌-◌, ◌<◌, ◌^◌, IsTrue, length, IfOk, OnOk};
ghost use Rattle.std.specs.Bool.{OnTrue};
ghost use Rattle.or_actor.specs.Fits.{have_small_links};
ghost use Rattle.net_record.specs.Records.{record_of};

use crate::acting::act;
use crate::answers::give_all;
use crate::clocks::{driver_clock, greatest_clock, settle_all};
use crate::delivery::deliver;
use crate::lanes::{Busy, Lanes};
use crate::start::new_actors;
use net_laboratory::{MOST_TURNS, Scenario, Turn};
use net_record::{
    ActorState, MOST_WEIGHT, Record, SettleDone, Wiring, add_item, add_settle, is_in_range,
    journals_of, longest, nodes_told, roles, wires,
};
use or_actor::{Outbox, Output};
use or_base::{NoMemory, Seq, TurnDone};
use std::alloc::Global;
use std::marker::Model;
use std::snapshot::Snapshot;

/// Actors, the lanes among them, and what they have done with its weight. Out of memory in a call, the world is
/// spent.
#[derive(Drop)]
pub struct World {
    wiring: Wiring,
    lanes: Lanes,
    actors: Vec<ActorState>,
    turns: Vec<TurnDone>,
    settles: Vec<SettleDone>,
    weight: u64,
    /// Empty, but during a turn.
    outbox: Outbox,
    alloc: Global,
}

impl Model for World {
    ghost use Rattle.net_record.specs.World.{WorldState};
    ghost use Rattle.net_world.specs.Sound.{IsKept};

    ghost Value = { WorldState };

    ghost view = { λ w. record { wires = w.wiring; lanes = w.lanes; actors = w.actors.items; turns = w.turns.items; settles = w.settles.items } };

    ghost invariant = { λ w. IsKept (record { wires = w.wiring; lanes = w.lanes; actors = w.actors.items; turns = w.turns.items; settles = w.settles.items }) w.weight };
}

impl World {
    ghost use Rattle.net_record.specs.World.{start, is_drained, turn, issue, settle};
    ghost use Rattle.net_record.specs.Budget.{has_spent_turns, is_over};
    ghost use Rattle.net_record.specs.Rounds.{longest};
    ghost use Rattle.net_record.specs.Run.{is_legal};
    ghost use Rattle.net_record.specs.Given.{is_heavy};
    ghost use Rattle.net_world.specs.Busy.{busy_lanes};
    ghost use Rattle.net_world.specs.Replaying.{may_find};

    /// The world of a scenario before anything is done.
    pub fn new(alloc: Global, scenario: &Scenario) -> Result<World, NoMemory>
        ensures { IfOk result (λ w. w ≡ start scenario.now) }
    {
        let all = roles(alloc, scenario)?;
        let wiring = Wiring::new(alloc, wires(alloc, all.as_slice())?)?;
        let lanes = Lanes::new(alloc, wiring.len())?;
        let actors = new_actors(alloc, scenario.kind, all.as_slice())?;
        let turns = Vec::new(alloc);
        let settles = Vec::new(alloc);
        Ok(World {
            wiring,
            lanes,
            actors,
            turns,
            settles,
            weight: 0,
            outbox: Outbox::new(alloc),
            alloc,
        })
    }

    /// No item waits.
    pub fn is_drained(&self) -> bool
        ensures { result ≡ is_drained self.now }
    {
        self.lanes.are_empty()
    }

    /// What was done weighs too much.
    pub fn is_heavy(&self) -> bool
        ensures { result ≡ is_heavy self.now }
    {
        MOST_WEIGHT < self.weight
    }

    /// As many turns as may be were done.
    pub fn has_spent_turns(&self) -> bool
        ensures { result ≡ has_spent_turns self.now.turns }
    {
        MOST_TURNS <= self.turns.len()
    }

    /// The budget is exceeded: what was done weighs too much, or as many turns as may be were done and an item waits.
    #[tactic(auto, unfolding(net_record::specs::Budget::is_over))]
    pub fn is_over(&self) -> bool
        ensures { result ≡ is_over self.now }
    {
        self.is_heavy() || (self.has_spent_turns() && !self.is_drained())
    }

    /// The greatest length that the turn of a lane may find: for a question that of the store's journal, and else 0.
    pub fn longest(&self, lane: usize) -> u64
        ensures longest { result ≡ longest self.now lane }
        ensures small { result < 2 ^ 63 }
    {
        match self.lanes.front(lane) {
            Some(front) => {
                let reader = &self.actors[self.wiring.reader(lane) as usize];
                longest(self.actors.as_slice(), &reader.part, &front.item)
            }
            None => 0,
        }
    }

    /// An item waits on the lane, and its turn may find the length `at`.
    fn may_find(&self, lane: usize, at: u64) -> bool
        ensures { result ≡ may_find self.now lane at }
    {
        match self.lanes.front(lane) {
            Some(front) => {
                let reader = &self.actors[self.wiring.reader(lane) as usize];
                is_in_range(self.actors.as_slice(), &reader.part, &front.item, at)
            }
            None => false,
        }
    }

    /// The turn is legal: an item waits on its lane, and its length is one that it may find.
    #[tactic(auto, using(crate::proofs::GivenTurns::legal))]
    pub fn is_legal(&self, turn: Turn) -> bool
        ensures legal { result ≡ is_legal self.now turn }
        ensures small { OnTrue result (turn.at < 2 ^ 63) }
    {
        let lane = turn.lane as usize;
        // the greatest length is small, so that one that is legal fits
        turn.at <= self.longest(lane) && self.may_find(lane, turn.at)
    }

    /// The turn of a lane: its reader takes the item that waits longest, and what it sends is put on the lanes of its
    /// ports. `at` is the length that a desk finds. Where no item waits on the lane, nothing is done.
    pub fn turn(&mut self, lane: usize, at: u64) -> Result<(), NoMemory>
        requires { at < 2 ^ 64 - 1 }
        ensures { OnOk result (self.new ≡ turn self.old lane at) }
    {
        if self.lanes.is_lane_empty(lane) {
            return Ok(());
        }
        self.turns.reserve(1)?;
        let reader = self.wiring.reader(lane);
        let taken = self.lanes.take(lane as u32);
        let item = Snapshot::of(&taken.item);
        let weight = add_item(self.weight, &taken.item);
        self.outbox.clear();
        let stamp = act(
            &mut self.actors,
            reader,
            lane as u32,
            taken,
            at,
            &mut self.outbox,
        )?;
        self.weight = weight;
        self.turns
            .push_reserved(TurnDone::new(lane as u32, at, stamp, item));
        deliver(
            &self.wiring,
            &mut self.lanes,
            reader,
            stamp,
            &mut self.outbox,
        )?;
        Ok(())
    }

    /// A phase begins: the driver's items, by its ports, are put on its lanes with the driver's clock as their stamp.
    pub fn issue(&mut self, issues: Vec<Output>) -> Result<(), NoMemory>
        requires { IsTrue (have_small_links issues.items) }
        ensures { OnOk result (self.new ≡ issue self.old issues.items) }
    {
        let stamp = driver_clock(self.actors.as_slice());
        let mut out = Outbox::from_outputs(issues);
        deliver(&self.wiring, &mut self.lanes, 0, stamp, &mut out)?;
        Ok(())
    }

    /// A phase ends at a moment, in which these desks were asked: what its settle tells is recorded, with an answer of each in
    /// this order, and with routes where it shows them. Every clock becomes one more than the greatest, and every desk sees its
    /// store's journal.
    pub fn settle(&mut self, moment: u64, asked: &[u32], shows: bool) -> Result<(), NoMemory>
        ensures { OnOk result (self.new ≡ settle moment asked.now shows self.old) }
    {
        let nodes = nodes_told(self.alloc, self.actors.as_slice(), shows)?;
        let clock = greatest_clock(self.actors.as_slice()) + 1;
        self.settles.reserve(1)?;
        let answers = give_all(self.alloc, &mut self.actors, asked)?;
        settle_all(self.alloc, &mut self.actors, clock)?;
        let done = SettleDone {
            turns: self.turns.len() as u64,
            moment,
            nodes: Seq::from_vec(nodes),
            answers: Seq::from_vec(answers),
        };
        let weight = add_settle(self.weight, &done);
        self.weight = weight;
        self.settles.push_reserved(done);
        Ok(())
    }

    /// How many turns are done. It takes no memory.
    pub fn turn_count(&self) -> u64
        ensures { result ≡ length self.now.turns }
    {
        self.turns.len() as u64
    }

    /// How many settles are done. It takes no memory.
    pub fn settle_count(&self) -> u64
        ensures count { result ≡ length self.now.settles }
        ensures small { result < 2 ^ 63 }
    {
        self.settles.len() as u64
    }

    /// The lanes on which an item waits, in order, with how many do.
    pub fn busy_lanes(&self) -> Result<Vec<Busy>, NoMemory>
        ensures { IfOk result (λ found. found.items ≡ busy_lanes self.now.lanes) }
    {
        self.lanes.busy_lanes()
    }

    /// What was done, with the number of turns done as each round ended.
    pub fn into_record(self, marks: Vec<u64>) -> Result<Record, NoMemory>
        ensures { IfOk result (λ done. done ≡ record_of self marks.items) }
    {
        let World {
            wiring: _wiring,
            lanes: _lanes,
            actors,
            turns,
            settles,
            weight: _weight,
            outbox: _outbox,
            alloc,
        } = self;
        let journals = journals_of(alloc, actors)?;
        Ok(Record {
            turns: Seq::from_vec(turns),
            journals: Seq::from_vec(journals),
            settles: Seq::from_vec(settles),
            marks: Seq::from_vec(marks),
        })
    }
}
