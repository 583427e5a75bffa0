ghost use Rattle.std.specs.Prelude.{◌≡◌, ◌-◌, ◌<◌, ◌^◌, ◌&&◌, [], length, IfOk, IfErr, OnOk};
ghost use Rattle.std.specs.Bool.{OnTrue};
ghost use Rattle.net_laboratory.specs.declared.schedule.Turn.{Turn};
ghost use Rattle.net_record.specs.Given.{run_given};
ghost use Rattle.net_record.specs.Ends.{EndsDrained};
ghost use Rattle.net_record.specs.Records.{record_of, IsRecordOf};
ghost use Rattle.net_record.specs.Run.{run, schedule_of};
ghost use Rattle.net_record.specs.Tells.{RecordTells};
ghost use Rattle.net_answers.specs.Recorded.{RecordAnswers};
ghost use Rattle.net_agree.specs.Recorded.{RecordAgrees};
ghost use Rattle.net_world.specs.Given.{IsGivenRecord, IsGivenFault, NamesBadTurn};

use crate::fault::ReplayFault;
use crate::scenario::scenario_is_sound;
use crate::world::World;
use net_agree::records_agree;
use net_answers::records_answer;
use net_laboratory::{Scenario, Schedule, Turn};
use net_record::{
    Phase, Record, desks_asked, given_are_done, given_ends_drained, given_is_a_run,
    given_is_reached, phases, runs_tell,
};
use or_base::NoMemory;
use std::alloc::Global;
use std::collections::VecDeque;
use std::marker::Model;

/// Why no further turn is done: the turn with this index is bad, or in the phase with this number the budget is
/// exceeded.
#[derive(Clone, Copy)]
pub enum TurnFault {
    Bad(u64),
    Over(u64),
}

/// These phases, the first in front.
fn queue_of(alloc: Global, phases: Vec<Phase>) -> Result<VecDeque<Phase>, NoMemory>
    ensures { IfOk result (λ queue. queue.items ≡ phases.items) }
{
    let mut queue = VecDeque::new(alloc);
    for phase in phases {
        queue.push_back(phase)?;
    }
    Ok(queue)
}

/// A world, and the phases that aren't settled; the first of these has begun.
#[derive(Drop)]
struct GivenRun {
    world: World,
    unsettled: VecDeque<Phase>,
    alloc: Global,
}

impl Model for GivenRun {
    ghost use Rattle.std.specs.Prelude.{All};
    ghost use Rattle.net_record.specs.Run.{Progress};
    ghost use Rattle.net_record.specs.Small.{IssuesSmallLinks};

    ghost Value = { Progress };

    ghost view = { λ g. record { world = g.world; unsettled = g.unsettled.items } };

    ghost invariant = { λ g. All IssuesSmallLinks g.unsettled.items };
}

impl GivenRun {
    ghost use Rattle.net_record.specs.World.{start};
    ghost use Rattle.net_record.specs.Phases.{phases};
    ghost use Rattle.net_record.specs.Run.{is_open, is_legal};
    ghost use Rattle.net_record.specs.Given.{settles_within, turn_within, given_from};
    ghost use Rattle.net_record.specs.Given.Stage.{GoesOn};
    ghost use Rattle.net_world.specs.Replaying.{is_due, settled_first, begun, stage_of, ended, IsAfterTurn, missing};

    /// The world of a scenario before anything is done, with all its phases. None has begun.
    fn new(alloc: Global, scenario: &Scenario) -> Result<GivenRun, NoMemory>
        ensures { IfOk result (λ run. run ≡ record { world = start scenario.now; unsettled = phases scenario.now }) }
    {
        let unsettled = queue_of(alloc, phases(alloc, scenario)?)?;
        let world = World::new(alloc, scenario)?;
        Ok(GivenRun {
            world,
            unsettled,
            alloc,
        })
    }

    /// A phase isn't settled.
    fn is_open(&self) -> bool
        ensures { result ≡ is_open self.now.unsettled }
    {
        !self.unsettled.is_empty()
    }

    /// A phase isn't settled, and no item waits: its settle is due.
    fn is_due(&self) -> bool
        ensures { result ≡ is_due self.now }
    {
        self.is_open() && self.world.is_drained()
    }

    /// The first phase begins, if one is left.
    fn begin_first(&mut self) -> Result<(), NoMemory>
        ensures { OnOk result (self.new ≡ begun self.old) }
    {
        // the phase keeps its issues, which say at its settle which desks were asked
        if let Some(phase) = self.unsettled.front() {
            let issues = phase.issues.copied()?;
            self.world.issue(issues.into_vec()?)?;
        }
        Ok(())
    }

    /// The settle of the first phase, if one is left.
    fn settle_first(&mut self) -> Result<(), NoMemory>
        ensures { OnOk result (self.new ≡ settled_first self.old.world self.old.unsettled) }
    {
        if let Some(phase) = self.unsettled.pop_front() {
            let asked = desks_asked(self.alloc, phase.issues.as_slice())?;
            self.world
                .settle(phase.moment, asked.as_slice(), phase.shows_routes)?;
        }
        Ok(())
    }

    /// The settles that are due, one after another, as long as no item waits. The answer is the number of the settle by
    /// which too much was done.
    #[tactic(auto, using(crate::proofs::GivenTurns::settles_steps))]
    fn settle_due(&mut self) -> Result<Option<u64>, NoMemory>
        ensures { IfOk result (λ over. stage_of over self.new ≡ settles_within self.old.world self.old.unsettled) }
    {
        while self.is_due() {
            self.settle_first()?;
            if self.world.is_heavy() {
                return Ok(Some(self.world.settle_count()));
            }
            self.begin_first()?;
        }
        Ok(None)
    }

    /// A turn, and the settles that are due then. The answer is the number of the phase in which too much was done.
    #[tactic(auto, using(crate::proofs::GivenTurns::turn_steps))]
    fn turn(&mut self, turn: Turn) -> Result<Option<u64>, NoMemory>
        requires { turn.at < 2 ^ 64 - 1 }
        ensures { IfOk result (λ over. stage_of over self.new ≡ turn_within self.old turn) }
    {
        self.world.turn(turn.lane as usize, turn.at)?;
        if self.world.is_heavy() {
            return Ok(Some(self.world.settle_count() + 1));
        }
        self.settle_due()
    }

    /// The turn may come next: a phase isn't settled, and it is legal.
    fn may_come(&self, turn: Turn) -> bool
        ensures legal { result ≡ (is_open self.now.unsettled && is_legal self.now.world turn) }
        ensures small { OnTrue result (turn.at < 2 ^ 63) }
    {
        self.is_open() && self.world.is_legal(turn)
    }

    /// The next of the given turns, if it may be done. The answer is why not, or that the budget was exceeded by it.
    #[tactic(auto, using(crate::proofs::GivenTurns::given_steps))]
    fn run_turn(&mut self, turn: Turn) -> Result<Option<TurnFault>, NoMemory>
        ensures { IfOk result (λ fault. IsAfterTurn self.old turn fault self.new) }
    {
        if !self.may_come(turn) {
            return Ok(Some(TurnFault::Bad(self.world.turn_count())));
        }
        if self.world.has_spent_turns() {
            return Ok(Some(TurnFault::Over(self.world.settle_count() + 1)));
        }
        match self.turn(turn)? {
            Some(phase) => Ok(Some(TurnFault::Over(phase))),
            None => Ok(None),
        }
    }

    /// The turn that is missing, where a phase is left.
    fn missing(&self) -> Option<TurnFault>
        ensures { result ≡ missing self.now.unsettled (length self.now.world.turns) }
    {
        if self.is_open() {
            Some(TurnFault::Bad(self.world.turn_count()))
        } else {
            None
        }
    }

    /// These turns, in order. The answer is why not all were done, or which one is missing.
    #[tactic(auto, using(crate::proofs::GivenTurns::run_steps))]
    fn run_turns(&mut self, turns: &[Turn]) -> Result<Option<TurnFault>, NoMemory>
        ensures { IfOk result (λ fault. ended fault self.new ≡ given_from (GoesOn self.old) turns.now) }
    {
        for turn in turns {
            if let Some(fault) = self.run_turn(*turn)? {
                return Ok(Some(fault));
            }
        }
        Ok(self.missing())
    }

    /// The settles that are due at the start, and then these turns. The answer is why the last phase has no settle.
    #[tactic(auto, using(crate::proofs::GivenTurns::start_steps))]
    fn run(&mut self, turns: &[Turn]) -> Result<Option<TurnFault>, NoMemory>
        ensures { IfOk result (λ fault. ended fault self.new ≡ given_from (settles_within self.old.world self.old.unsettled) turns.now) }
    {
        match self.settle_due()? {
            Some(phase) => Ok(Some(TurnFault::Over(phase))),
            None => self.run_turns(turns),
        }
    }

    /// What was done. It has no marks.
    fn into_record(self) -> Result<Record, NoMemory>
        ensures { IfOk result (λ done. done ≡ record_of self.world []) }
    {
        let GivenRun {
            world,
            unsettled: _unsettled,
            alloc,
        } = self;
        world.into_record(Vec::new(alloc))
    }
}

/// The turns of a schedule, within the budget.
#[tactic(auto, unfolding(net_record::specs::Given::run_given), using(crate::proofs::GivenTurns::replayed))]
fn run_schedule(
    alloc: Global,
    scenario: &Scenario,
    schedule: &Schedule,
) -> Result<Record, ReplayFault>
    ensures given { IfOk result (λ done. IsGivenRecord (run_given scenario.now schedule.now.turns) done) }
    ensures fault { IfErr result (λ fault. IsGivenFault (run_given scenario.now schedule.now.turns) fault) }
{
    let mut run = GivenRun::new(alloc, scenario)?;
    run.begin_first()?;
    let fault = run.run(schedule.turns.as_slice())?;
    match fault {
        None => Ok(run.into_record()?),
        Some(TurnFault::Bad(index)) => Err(ReplayFault::BadTurn { index }),
        Some(TurnFault::Over(settle)) => Err(ReplayFault::Unsettled { settle }),
    }
}

/// Runs a scenario under the turns of a schedule, within the budget of every run. A phase ends at the first moment when
/// no item waits. The record is that of the run that settles every phase with just these turns; it has no marks, and it
/// tells what that of every run does: what a settle tells was there, values and routes of answers are what journals hold and
/// the routes from scratch over them, and so are the routes at settles; and at a settle stores that full syncs join agree. It fails at the first turn that isn't legal, comes after the last
/// settle or is missing before it, with its index; where the budget is exceeded, with the phase; and where memory runs out.
#[tactic(auto, using(crate::proofs::Recorded::given_recorded))]
pub fn replay(
    alloc: Global,
    scenario: &Scenario,
    schedule: &Schedule,
) -> Result<Record, ReplayFault>
    ensures given { IfOk result (λ done. IsGivenRecord (run_given scenario.now schedule.now.turns) done) }
    ensures done { IfOk result (λ done. schedule_of done.turns ≡ schedule.now.turns) }
    ensures drained { IfOk result (λ done. EndsDrained scenario.now (run_given scenario.now schedule.now.turns).last) }
    ensures is_run { IfOk result (λ done. IsRecordOf (run scenario.now (schedule_of done.turns)) done) }
    ensures tells { IfOk result (λ done. RecordTells scenario.now done) }
    ensures answers { IfOk result (λ done. RecordAnswers scenario.now done) }
    ensures agrees { IfOk result (λ done. RecordAgrees scenario.now done) }
    ensures fault { IfErr result (λ fault. IsGivenFault (run_given scenario.now schedule.now.turns) fault) }
    ensures bad { IfErr result (λ fault. NamesBadTurn (run scenario.now schedule.now.turns) fault) }
{
    given_is_a_run();
    given_are_done();
    given_ends_drained();
    given_is_reached();
    runs_tell();
    records_answer();
    records_agree();
    scenario_is_sound(scenario);
    match run_schedule(alloc, scenario, schedule) {
        Ok(done) => Ok(done),
        Err(fault) => Err(fault),
    }
}
