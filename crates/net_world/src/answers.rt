//! The answers of a phase, in the order of its questions.

ghost use Rattle.std.specs.Prelude.{◌≡◌, [], slice_set, option_map, IfOk, OnOk};
ghost use Rattle.net_record.specs.Actors.{actor_at, answer_of, actor_without_question};
ghost use Rattle.net_record.specs.Answers.{give, give_all};
ghost use Rattle.net_world.specs.Sound.{StayClocked};

use net_record::{ActorState, AnswerDone, answer_of};
use or_base::NoMemory;
use std::alloc::Global;

/// The answer to the oldest question of an actor, if there is such an actor and it is a desk that has one.
#[tactic(auto, using(crate::proofs::Clocked::nobody))]
fn answer_at(actors: &[ActorState], number: u32) -> Result<Option<AnswerDone>, NoMemory>
    ensures { IfOk result (λ answer. answer ≡ answer_of actors.now (actor_at actors.now number).part) }
{
    match actors.get(number as usize) {
        Some(actor) => Ok(answer_of(actors, &actor.part)?),
        None => Ok(None),
    }
}

/// An actor forgets its oldest question, if there is such an actor and such a question. It takes no memory.
#[tactic(auto, using(crate::proofs::Clocked::nobody))]
fn forget_at(actors: &mut Vec<ActorState>, number: u32)
    ensures { actors.new.items ≡ slice_set actors.old.items number (actor_without_question (actor_at actors.old.items number)) }
{
    if (number as usize) < actors.len() {
        let actor = &mut actors[number as usize];
        actor.forget();
    }
}

/// An actor answers its oldest question, if it has one. Out of memory, nothing is answered.
#[tactic(auto, unfolding(net_record::specs::Answers::give), using(crate::proofs::Clocked::clocked))]
fn give(
    actors: &mut Vec<ActorState>,
    answers: &mut Vec<AnswerDone>,
    number: u32,
) -> Result<(), NoMemory>
    ensures given { OnOk result (record { actors = actors.new.items; answers = answers.new.items }
        ≡ give (record { actors = actors.old.items; answers = answers.old.items }) number) }
    ensures clocks { StayClocked actors.old.items actors.new.items }
{
    answers.reserve(1)?;
    let answer = answer_at(actors.as_slice(), number)?;
    forget_at(actors, number);
    if let Some(answer) = answer {
        answers.push_reserved(answer);
    }
    Ok(())
}

/// Each of these actors answers a question.
#[tactic(auto, using(crate::proofs::Clocked::clocked))]
pub fn give_all(
    alloc: Global,
    actors: &mut Vec<ActorState>,
    numbers: &[u32],
) -> Result<Vec<AnswerDone>, NoMemory>
    ensures given { IfOk result (λ answers. record { actors = actors.new.items; answers = answers.items }
        ≡ give_all (record { actors = actors.old.items; answers = [] }) numbers.now) }
    ensures clocks { StayClocked actors.old.items actors.new.items }
{
    let mut answers = Vec::new(alloc);
    for number in numbers {
        give(actors, &mut answers, *number)?;
    }
    Ok(answers)
}
