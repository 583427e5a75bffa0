ghost use Rattle.std.specs.Prelude.{◌≡◌, ◌≤◌, ◌⊎◌, Ok, Some, None, IfOk, length, true};
ghost use Rattle.openr_lab.specs.Built.{is_built};
ghost use Rattle.openr_lab.specs.Answer.{answer_by_rounds, answer_given, answer_ran, answer_for, answer_to, not_built_line, fault_line, RoundsAreAnsweredAgain};
ghost use Rattle.openr_lab.specs.Ends.{IsAnswerStatus, IsReplay, IsUnsettledRun, IsBadTurn, IsRun};

use crate::answer::Answer;
use crate::built::built;
use crate::texts::{NOT_BUILT, bad_turn_line, fault_line, unsettled_line};
use lab_words::Words;
use net_laboratory::{Scenario, Schedule};
use net_record::rounds_are_given;
use net_report::report;
use net_scenario::{ReadRefusal, ScenarioFault, read_scenario};
use net_world::{ReplayFault, RunFault, replay, round_robin};
use or_base::{Bytes, NoMemory};
use std::alloc::Global;

/// The answer to bytes with a fault.
fn refuse(alloc: Global, fault: ScenarioFault) -> Result<Answer, NoMemory>
    ensures { IfOk result (λ answer. answer ≡ record { status = 3; text = fault_line fault; run = None }) }
{
    Ok(Answer {
        status: 3,
        text: fault_line(alloc, fault)?,
        run: None,
    })
}

/// The answer to a scenario that the program doesn't run.
fn refuse_unbuilt(alloc: Global) -> Result<Answer, NoMemory>
    ensures { IfOk result (λ answer. answer ≡ record { status = 3; text = not_built_line; run = None }) }
{
    Ok(Answer {
        status: 3,
        text: Bytes::from_vec(NOT_BUILT.to_vec(alloc)?),
        run: None,
    })
}

/// Where round robin settles every phase of a laboratory, the same laboratory with the turns that it did has the same
/// report.
#[tactic(auto, using(crate::proofs::Again::again))]
fn rounds_are_answered_again()
    ensures { RoundsAreAnsweredAgain }
{
    rounds_are_given();
}

/// The answer to a scenario without turns: it is run by round robin.
#[tactic(auto, using(crate::proofs::Answers::answer_steps))]
fn answer_by_rounds(alloc: Global, trace: bool, scenario: &Scenario) -> Result<Answer, NoMemory>
    requires { scenario.now.turns ≡ None }
    ensures answer { IfOk result (λ answer. answer ≡ answer_by_rounds trace scenario.now) }
    ensures status { IfOk result (λ answer. (answer.status ≡ 0) ⊎ (answer.status ≡ 4)) }
    ensures replay { IfOk result (λ answer. answer.status ≡ 0 → IsReplay scenario.now trace answer.text answer.run) }
    ensures unsettled { IfOk result (λ answer. answer.status ≡ 4 → IsUnsettledRun scenario.now answer.text answer.run) }
{
    match round_robin(alloc, scenario) {
        Ok(done) => Ok(Answer {
            status: 0,
            text: Bytes::from_vec(report(alloc, &done, scenario, trace)?),
            run: Some(done),
        }),
        Err(RunFault::Unsettled { settle, done }) => Ok(Answer {
            status: 4,
            text: unsettled_line(alloc, settle)?,
            run: Some(done),
        }),
        Err(RunFault::NoMemory) => Err(NoMemory),
    }
}

/// The answer to a scenario that gives these turns.
#[tactic(auto, using(crate::proofs::Answers::given_steps))]
fn answer_given(
    alloc: Global,
    trace: bool,
    scenario: &Scenario,
    schedule: &Schedule,
) -> Result<Answer, NoMemory>
    requires { scenario.now.turns ≡ Some schedule.now }
    ensures answer { IfOk result (λ answer. answer ≡ answer_given trace scenario.now schedule.now.turns) }
    ensures status { IfOk result (λ answer. (answer.status ≡ 0) ⊎ ((answer.status ≡ 4) ⊎ (answer.status ≡ 8))) }
    ensures replay { IfOk result (λ answer. answer.status ≡ 0 → IsReplay scenario.now trace answer.text answer.run) }
    ensures unsettled { IfOk result (λ answer. answer.status ≡ 4 → IsUnsettledRun scenario.now answer.text answer.run) }
    ensures bad { IfOk result (λ answer. answer.status ≡ 8 → IsBadTurn scenario.now answer.text answer.run) }
{
    match replay(alloc, scenario, schedule) {
        Ok(done) => Ok(Answer {
            status: 0,
            text: Bytes::from_vec(report(alloc, &done, scenario, trace)?),
            run: Some(done),
        }),
        Err(ReplayFault::BadTurn { index }) => Ok(Answer {
            status: 8,
            text: bad_turn_line(alloc, index)?,
            run: None,
        }),
        Err(ReplayFault::Unsettled { settle }) => Ok(Answer {
            status: 4,
            text: unsettled_line(alloc, settle)?,
            run: None,
        }),
        Err(ReplayFault::NoMemory) => Err(NoMemory),
    }
}

/// The answer to a scenario that is run: by round robin, unless it gives turns.
fn answer_ran(alloc: Global, trace: bool, scenario: &Scenario) -> Result<Answer, NoMemory>
    ensures answer { IfOk result (λ answer. answer ≡ answer_ran trace scenario.now) }
    ensures status { IfOk result (λ answer. IsAnswerStatus answer.status) }
    ensures replay { IfOk result (λ answer. answer.status ≡ 0 → IsReplay scenario.now trace answer.text answer.run) }
    ensures unsettled { IfOk result (λ answer. answer.status ≡ 4 → IsUnsettledRun scenario.now answer.text answer.run) }
    ensures bad { IfOk result (λ answer. answer.status ≡ 8 → IsBadTurn scenario.now answer.text answer.run) }
{
    rounds_are_answered_again();
    match &scenario.turns {
        None => Ok(answer_by_rounds(alloc, trace, scenario)?),
        Some(schedule) => Ok(answer_given(alloc, trace, scenario, schedule)?),
    }
}

/// The answer to a scenario.
#[tactic(auto, unfolding(crate::specs::Answer::answer_for))]
fn answer_scenario(alloc: Global, words: &Words, scenario: &Scenario) -> Result<Answer, NoMemory>
    ensures answer { IfOk result (λ answer. answer ≡ answer_for words.now (Ok scenario.now)) }
    ensures status { IfOk result (λ answer. IsAnswerStatus answer.status) }
    ensures built { IfOk result (λ answer. (answer.status ≡ 3) ⊎ (is_built words.now scenario.now ≡ true)) }
    ensures replay { IfOk result (λ answer. answer.status ≡ 0 → IsReplay scenario.now words.now.trace answer.text answer.run) }
    ensures unsettled { IfOk result (λ answer. answer.status ≡ 4 → IsUnsettledRun scenario.now answer.text answer.run) }
    ensures bad { IfOk result (λ answer. answer.status ≡ 8 → IsBadTurn scenario.now answer.text answer.run) }
{
    if built(words, scenario) {
        Ok(answer_ran(alloc, words.trace, scenario)?)
    } else {
        Ok(refuse_unbuilt(alloc)?)
    }
}

/// The answer to the bytes that were read.
#[tactic(auto, unfolding(crate::specs::Answer::answer_for))]
pub fn answer_to(alloc: Global, words: &Words, bytes: &[u8]) -> Result<Answer, NoMemory>
    ensures answer { IfOk result (λ answer. answer ≡ answer_to words.now bytes.now) }
    ensures status { IfOk result (λ answer. IsAnswerStatus answer.status) }
    ensures small { IfOk result (λ answer. (answer.status ≡ 3) ⊎ (length bytes.now ≤ 33554432)) }
    ensures replay { IfOk result (λ answer. answer.status ≡ 0
        → IsRun words.now bytes.now (λ lab. IsReplay lab words.now.trace answer.text answer.run)) }
    ensures unsettled { IfOk result (λ answer. answer.status ≡ 4
        → IsRun words.now bytes.now (λ lab. IsUnsettledRun lab answer.text answer.run)) }
    ensures bad { IfOk result (λ answer. answer.status ≡ 8
        → IsRun words.now bytes.now (λ lab. IsBadTurn lab answer.text answer.run)) }
{
    match read_scenario(alloc, bytes, true) {
        Ok(scenario) => Ok(answer_scenario(alloc, words, &scenario)?),
        Err(ReadRefusal::Fault(fault)) => Ok(refuse(alloc, fault)?),
        Err(ReadRefusal::NoMemory) => Err(NoMemory),
    }
}
