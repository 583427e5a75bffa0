//! Runs under given turns: those that round robin did, and one turn more than the budget allows.

use crate::agreement::{TWO_SYNCS, record_of};
use net_laboratory::{Scenario, Schedule, Turn};
use net_record::schedule_of;
use net_scenario::read_scenario;
use net_world::{ReplayFault, RunFault, replay, round_robin};
use or_base::{NoMemory, Seq};
use std::alloc::Global;
use std::test::Fail;

/// The scenario that these lines are.
fn scenario_of(alloc: Global, lines: &str) -> Result<Scenario, NoMemory> {
    match read_scenario(alloc, lines.as_bytes(), true) {
        Ok(scenario) => Ok(scenario),
        Err(_) => Err(NoMemory),
    }
}

#[test]
fn the_turns_of_round_robin_are_done_again(rt: HostRuntime) -> Result<(), Fail> {
    let first = record_of(rt.alloc(), TWO_SYNCS)?;
    let scenario = scenario_of(rt.alloc(), TWO_SYNCS)?;
    let schedule = schedule_of(rt.alloc(), &first)?;
    match replay(rt.alloc(), &scenario, &schedule) {
        Ok(again) => {
            assert!(rt; again.turns.as_slice().len() == first.turns.as_slice().len());
            assert!(rt; again.settles.as_slice().len() == first.settles.as_slice().len());
            assert!(rt; again.marks.as_slice().is_empty());
        }
        Err(_) => assert!(rt; false),
    }
    Ok(())
}

/// 64 stores that are told the moment 7,813 times: 500,032 turns, the last of them on lane 126, which leads from the driver
/// to the last store.
fn many_ticks(alloc: Global) -> Result<String, NoMemory> {
    let mut lines = String::new(alloc);
    lines.push_str("{\"do\":\"lab\",\"kind\":\"stores\"}\n")?;
    for number in 0u32..64 {
        let line = format!(in alloc; "{{\"do\":\"node\",\"name\":\"n{number}\"}}\n")?;
        lines.push_str(line.as_str())?;
    }
    for moment in 1u32..7814 {
        let line = format!(in alloc; "{{\"do\":\"tick\",\"to\":{moment}}}\n")?;
        lines.push_str(line.as_str())?;
    }
    Ok(lines)
}

/// The 500,000 turns of the scenario that its budget allows, and then this one, if one is given.
fn turns_and(alloc: Global, scenario: &Scenario, last: Option<Turn>) -> Result<Schedule, NoMemory> {
    match round_robin(alloc, scenario) {
        Err(RunFault::Unsettled { settle: _, done }) => {
            let schedule = schedule_of(alloc, &done)?;
            let mut turns = schedule.turns.as_slice().to_vec(alloc)?;
            if let Some(turn) = last {
                turns.push(turn)?;
            }
            Ok(Schedule {
                turns: Seq::from_vec(turns),
            })
        }
        _ => Err(NoMemory),
    }
}

/// How the run of the scenario under those turns ends.
fn end_behind(alloc: Global, scenario: &Scenario, last: Option<Turn>) -> Option<ReplayFault> {
    match turns_and(alloc, scenario, last) {
        Ok(schedule) => match replay(alloc, scenario, &schedule) {
            Ok(_) => None,
            Err(fault) => Some(fault),
        },
        Err(_) => Some(ReplayFault::NoMemory),
    }
}

#[test]
fn one_turn_more_than_the_budget_allows_is_told_where_it_can_be_done(
    rt: HostRuntime,
) -> Result<(), Fail> {
    let lines = many_ticks(rt.alloc())?;
    let scenario = scenario_of(rt.alloc(), lines.as_str())?;
    let missing = Some(ReplayFault::BadTurn { index: 500_000 });
    let over = Some(ReplayFault::Unsettled { settle: 1 });
    let turn_on = |lane| Some(Turn { lane, at: 0 });
    assert!(rt; end_behind(rt.alloc(), &scenario, None) == missing);
    assert!(rt; end_behind(rt.alloc(), &scenario, turn_on(126)) == over);
    assert!(rt; end_behind(rt.alloc(), &scenario, turn_on(127)) == missing);
    Ok(())
}
