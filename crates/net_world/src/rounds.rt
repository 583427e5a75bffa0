ghost use Rattle.std.specs.Prelude.{◌≡◌, ◌+◌, ◌<◌, ◌^◌, [], All, length, IfOk, IfErr, OnOk};
ghost use Rattle.std.specs.List.{enumerate_from};
ghost use Rattle.net_record.specs.World.{start, is_drained};
ghost use Rattle.net_record.specs.Budget.{is_over};
ghost use Rattle.net_record.specs.Rounds.{turns_on, round, after_round, rounds_of, phase_of, rounds_of_phases, round_robin};
ghost use Rattle.net_record.specs.Records.{record_of, IsSettled, IsRecordOf};
ghost use Rattle.net_record.specs.Run.{run, schedule_of};
ghost use Rattle.net_record.specs.Ends.{EndsDrained};
ghost use Rattle.net_record.specs.Tells.{RecordTells};
ghost use Rattle.net_record.specs.Small.{IssuesSmallLinks};
ghost use Rattle.net_world.specs.Busy.{turns_on_each};
ghost use Rattle.net_world.specs.Settling.{after_phase, settles_phase};
ghost use Rattle.net_answers.specs.Recorded.{RecordAnswers};
ghost use Rattle.net_agree.specs.Recorded.{RecordAgrees};
ghost use Rattle.net_world.specs.Fault.{IsFaultOf, FaultTells, FaultAnswers, FaultAgrees};

use crate::fault::RunFault;
use crate::lanes::Busy;
use crate::scenario::scenario_is_sound;
use crate::world::World;
use net_agree::records_agree;
use net_answers::records_answer;
use net_laboratory::Scenario;
use net_record::{
    Phase, Record, desks_asked, phases, rounds_are_a_run, rounds_are_reached, runs_tell,
    settled_rounds_end_drained,
};
use or_base::NoMemory;
use std::alloc::Global;
use std::marker::Model;

/// So many turns of a lane, or fewer where the budget is exceeded.
#[tactic(auto, using(crate::proofs::Rounding::turns_steps))]
fn turns_on(world: &mut World, lane: usize, count: usize) -> Result<(), NoMemory>
    ensures { OnOk result (world.new ≡ turns_on world.old lane count) }
{
    for _turn in 0..count {
        if world.is_over() {
            return Ok(());
        }
        let at = world.longest(lane);
        world.turn(lane, at)?;
    }
    Ok(())
}

/// Of each of these lanes, in order, as many turns as items waited on it.
fn turns_on_each(world: &mut World, lanes: Vec<Busy>) -> Result<(), NoMemory>
    ensures { OnOk result (world.new ≡ turns_on_each world.old lanes.items) }
{
    for busy in lanes {
        turns_on(world, busy.lane as usize, busy.count)?;
    }
    Ok(())
}

/// A round: of each lane, in order, as many turns as items wait on it as the round begins.
#[tactic(auto, using(crate::proofs::Busied::rounded))]
fn round(world: &mut World) -> Result<(), NoMemory>
    ensures { OnOk result (world.new ≡ round world.old) }
{
    let lanes = world.busy_lanes()?;
    turns_on_each(world, lanes)
}

/// A world, and how many turns were done as each round ended.
#[derive(Drop)]
struct MarkedWorld {
    world: World,
    marks: Vec<u64>,
}

impl Model for MarkedWorld {
    ghost use Rattle.net_record.specs.Rounds.{Marked};

    ghost Value = { Marked };

    ghost view = { λ m. record { world = m.world; marks = m.marks.items } };
}

impl MarkedWorld {
    /// The world of a scenario before its first round.
    fn new(alloc: Global, scenario: &Scenario) -> Result<MarkedWorld, NoMemory>
        ensures { IfOk result (λ m. m ≡ record { world = start scenario.now; marks = [] }) }
    {
        Ok(MarkedWorld {
            world: World::new(alloc, scenario)?,
            marks: Vec::new(alloc),
        })
    }

    /// No item waits.
    fn is_drained(&self) -> bool
        ensures { result ≡ is_drained self.now.world }
    {
        self.world.is_drained()
    }

    /// The budget is exceeded.
    fn is_over(&self) -> bool
        ensures { result ≡ is_over self.now.world }
    {
        self.world.is_over()
    }

    /// One round.
    fn run_round(&mut self) -> Result<(), NoMemory>
        ensures { OnOk result (self.new ≡ after_round self.old) }
    {
        round(&mut self.world)?;
        self.marks.push(self.world.turn_count())?;
        Ok(())
    }

    /// Rounds until no item waits or the budget is exceeded, at most so many.
    #[tactic(auto, using(crate::proofs::Rounding::rounds_steps))]
    fn run_rounds(&mut self, count: u64) -> Result<(), NoMemory>
        ensures { OnOk result (self.new ≡ rounds_of self.old count) }
    {
        for _round in 0..count {
            if self.is_drained() || self.is_over() {
                return Ok(());
            }
            self.run_round()?;
        }
        Ok(())
    }

    /// The rounds of a phase, and its settle where it comes to one. The answer is whether it did, with the budget not
    /// passed after it either.
    fn run_phase(&mut self, phase: Phase) -> Result<bool, NoMemory>
        requires { IssuesSmallLinks phase }
        ensures after { OnOk result (self.new ≡ after_phase phase (phase_of self.old phase)) }
        ensures settled { IfOk result (λ settled. settled ≡ settles_phase phase (phase_of self.old phase)) }
    {
        let Phase {
            issues,
            rounds,
            moment,
            shows_routes,
        } = phase;
        let asked = desks_asked(*self.marks.allocator(), issues.as_slice())?;
        self.world.issue(issues.into_vec()?)?;
        self.run_rounds(rounds)?;
        if self.is_over() || !self.is_drained() {
            return Ok(false);
        }
        self.world.settle(moment, asked.as_slice(), shows_routes)?;
        Ok(!self.is_over())
    }

    /// The rounds of phases, each of which is settled. Where one isn't, the answer is its number, from 1.
    #[tactic(auto, using(crate::proofs::Rounding::phases_steps))]
    fn run_phases(&mut self, phases: Vec<Phase>) -> Result<Option<u64>, NoMemory>
        requires { All IssuesSmallLinks phases.items }
        ensures { IfOk result (λ unsettled. record { unsettled = unsettled; last = self.new } ≡ rounds_of_phases self.old (enumerate_from 1 phases.items)) }
    {
        let mut number = 1;
        for phase in phases {
            if !self.run_phase(phase)? {
                return Ok(Some(number));
            }
            number += 1;
        }
        Ok(None)
    }

    /// What was done.
    fn into_record(self) -> Result<Record, NoMemory>
        ensures { IfOk result (λ done. done ≡ record_of self.world self.marks) }
    {
        let MarkedWorld { world, marks } = self;
        world.into_record(marks)
    }
}

/// The rounds of every phase of a scenario.
#[tactic(auto, unfolding(net_record::specs::Rounds::round_robin))]
fn run_scenario(alloc: Global, scenario: &Scenario) -> Result<Record, RunFault>
    ensures rounds { IfOk result (λ done. IsSettled (round_robin scenario.now) done) }
    ensures fault { IfErr result (λ fault. IsFaultOf (round_robin scenario.now) fault) }
{
    let phases = phases(alloc, scenario)?;
    let mut marked = MarkedWorld::new(alloc, scenario)?;
    let unsettled = marked.run_phases(phases)?;
    let done = marked.into_record()?;
    match unsettled {
        None => Ok(done),
        Some(settle) => Err(RunFault::Unsettled { settle, done }),
    }
}

/// Runs a scenario by round robin: in each phase rounds until no item waits, at most as many as the settle that ends
/// it allows. The record is that of these rounds. Each phase has its settle, and no item waits at the end. But for its
/// marks the record is that of the run under the schedule of its own turns. Whether the run settled or not, every store
/// is its journal: what a settle tells of one are as many entries as it had then, the first of the journal in the
/// record; each answer is what some first entries of its node's journal hold, or the route from scratch over them, and no fewer
/// than the desk had seen; routes at a settle are those from scratch over the whole journal; no two finished full syncs that
/// settles tell of one node have the same number, and at a settle stores that full syncs join agree. It fails where a phase is unsettled, with the phase and the record up to there, and where memory runs out.
#[tactic(auto, using(crate::proofs::Recorded::recorded))]
pub fn round_robin(alloc: Global, scenario: &Scenario) -> Result<Record, RunFault>
    ensures rounds { IfOk result (λ done. IsSettled (round_robin scenario.now) done) }
    ensures drained { IfOk result (λ done. EndsDrained scenario.now (round_robin scenario.now).last.world) }
    ensures is_run { IfOk result (λ done. IsRecordOf (run scenario.now (schedule_of done.turns)) done) }
    ensures tells { IfOk result (λ done. RecordTells scenario.now done) }
    ensures answers { IfOk result (λ done. RecordAnswers scenario.now done) }
    ensures agrees { IfOk result (λ done. RecordAgrees scenario.now done) }
    ensures fault { IfErr result (λ fault. IsFaultOf (round_robin scenario.now) fault) }
    ensures fault_tells { IfErr result (λ fault. FaultTells scenario.now fault) }
    ensures fault_answers { IfErr result (λ fault. FaultAnswers scenario.now fault) }
    ensures fault_agrees { IfErr result (λ fault. FaultAgrees scenario.now fault) }
{
    rounds_are_a_run();
    settled_rounds_end_drained();
    rounds_are_reached();
    runs_tell();
    records_answer();
    records_agree();
    scenario_is_sound(scenario);
    match run_scenario(alloc, scenario) {
        Ok(done) => Ok(done),
        Err(fault) => Err(fault),
    }
}
