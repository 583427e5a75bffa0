//! What a desk finds in the store and in the Decision of its node, and what a settle answers.

ghost use Rattle.std.specs.Prelude.{◌≡◌, ◌<◌, ◌^◌, Some, None, is_some, length, take, option_map, option_and_then, IfOk};
ghost use Rattle.or_base.specs.Journal.{held_value};
ghost use Rattle.decision_core.specs.Decision.{route_at};
ghost use Rattle.net_record.specs.Desk.{asked_in, DeskState};
ghost use Rattle.net_record.specs.Actors.{actor_at, desk_of, decision_of, entries_of, view_asked, range_for, made_for, value_told, told_about, told_to, question_answer, answer_of, is_in_range};

use crate::actor::ActorState;
use crate::desk::{Desk, Question, View};
use crate::part::Part;
use crate::record::AnswerDone;
use decision_core::route_told;
use or_base::{Asked, Item, JournalEntry, Key, KvValue, NoMemory, Prefix, Route, Told, holds};

/// The item asks a desk.
pub fn is_question(item: &Item) -> bool
    ensures { result ≡ is_some (asked_in item.now) }
{
    matches!(item, Item::Get { .. } | Item::Ask { .. })
}

/// The view in which an actor looks for what an item asks, where it is a desk that is asked.
fn view_asked(part: &Part, item: &Item) -> Option<View>
    ensures { result ≡ view_asked (desk_of part.now) (asked_in item.now) }
{
    let desk = part.desk()?;
    match item {
        Item::Get { .. } => Some(desk.store()),
        Item::Ask { .. } => Some(desk.decision()),
        _other => None,
    }
}

/// The entries of an actor; none where there is no such actor.
fn entries_at(actors: &[ActorState], number: u32) -> &[JournalEntry]
    ensures entries { result.now ≡ entries_of (actor_at actors.now number).part }
    ensures small { length result.now < 2 ^ 63 }
{
    match actors.get(number as usize) {
        Some(actor) => actor.part.entries(),
        None => &[],
    }
}

/// The greatest number of entries that an actor may find for an item. It takes no memory.
#[tactic(auto, unfolding(crate::specs::Actors::range_for))]
pub fn longest(actors: &[ActorState], part: &Part, item: &Item) -> u64
    ensures most { result ≡ (range_for actors.now part.now item.now).most }
    ensures small { result < 2 ^ 63 }
{
    match view_asked(part, item) {
        Some(view) => entries_at(actors, view.owner).len() as u64,
        None => 0,
    }
}

/// The turn of an actor with an item may find `at` entries: a desk that is asked finds from as many as it found last in the
/// view to all that are there, and every other turn finds 0. It takes no memory.
#[tactic(auto, unfolding(crate::specs::Actors::range_for))]
pub fn is_in_range(actors: &[ActorState], part: &Part, item: &Item, at: u64) -> bool
    ensures { result ≡ is_in_range (range_for actors.now part.now item.now) at }
{
    match view_asked(part, item) {
        Some(view) => view.last <= at && at <= entries_at(actors, view.owner).len() as u64,
        None => at == 0,
    }
}

/// The stamp of the turn that made the `at` entries that an actor finds for an item; 0 where it finds none. It takes no
/// memory.
#[tactic(auto, unfolding(crate::specs::Actors::made_for))]
pub fn made_for(actors: &[ActorState], part: &Part, item: &Item, at: u64) -> u64
    ensures { result ≡ made_for actors.now part.now item.now at }
{
    let Some(view) = view_asked(part, item) else {
        return 0;
    };
    match actors.get(view.owner as usize) {
        Some(owner) => owner.made.made_at(at),
        None => 0,
    }
}

/// The first entries, `at` of them or all.
fn first_entries(journal: &[JournalEntry], at: u64) -> &[JournalEntry]
    ensures { result.now ≡ take at journal.now }
{
    if at < journal.len() as u64 {
        &journal[..at as usize]
    } else {
        journal
    }
}

/// The value that the first entries hold under the key, `at` of them.
fn held_at(journal: &[JournalEntry], at: u64, key: &Key) -> Result<Option<KvValue>, NoMemory>
    ensures { IfOk result (λ held. held ≡ held_value (take at journal.now) key.now) }
{
    let entries = first_entries(journal, at);
    match holds(entries, key) {
        Some(held) => Ok(Some(held.value.copied()?)),
        None => Ok(None),
    }
}

/// The route to the prefix over the first entries that an actor took, `at` of them, where it is a Decision.
fn route_at(
    actors: &[ActorState],
    number: u32,
    at: u64,
    prefix: &Prefix,
) -> Result<Option<Route>, NoMemory>
    ensures { IfOk result (λ route. route ≡ option_and_then (λ s. route_at s at prefix.now) (decision_of (actor_at actors.now number).part)) }
{
    let Some(actor) = actors.get(number as usize) else {
        return Ok(None);
    };
    match actor.part.decision() {
        Some(decision) => Ok(decision.route_at(at, prefix)?),
        None => Ok(None),
    }
}

/// What a value tells.
fn value_told(held: Option<KvValue>) -> Told
    ensures { result ≡ value_told held }
{
    match held {
        Some(value) => Told::Value(value),
        None => Told::Nothing,
    }
}

/// What is told by the first `at` entries that the owner of a view has.
fn told_about(actors: &[ActorState], view: View, at: u64, asked: &Asked) -> Result<Told, NoMemory>
    ensures { IfOk result (λ told. told ≡ told_about actors.now view at asked.now) }
{
    match asked {
        Asked::Key(key) => {
            let held = held_at(entries_at(actors, view.owner), at, key)?;
            Ok(value_told(held))
        }
        Asked::Prefix(prefix) => {
            let route = route_at(actors, view.owner, at, prefix)?;
            Ok(route_told(route))
        }
    }
}

/// What is told to a question of a desk.
#[tactic(auto, unfolding(crate::specs::Actors::told_to))]
fn told_to(actors: &[ActorState], desk: &Desk, question: &Question) -> Result<Told, NoMemory>
    ensures { IfOk result (λ told. told ≡ told_to actors.now desk.now question.now) }
{
    if question.at < question.seen {
        return Ok(Told::Behind(question.at));
    }
    let view = desk.view_for(&question.asked);
    told_about(actors, view, question.at, &question.asked)
}

/// The answer to a question of a desk.
#[tactic(auto, unfolding(crate::specs::Actors::question_answer))]
fn question_answer(
    actors: &[ActorState],
    desk: &Desk,
    question: &Question,
) -> Result<AnswerDone, NoMemory>
    ensures { IfOk result (λ answer. answer ≡ question_answer actors.now desk.now question.now) }
{
    Ok(AnswerDone {
        node: desk.node().copied()?,
        asked: question.asked.copied()?,
        told: told_to(actors, desk, question)?,
    })
}

/// The answer to the oldest question of an actor, where it is a desk that has one.
#[tactic(auto, unfolding(crate::specs::Actors::answer_of))]
pub fn answer_of(actors: &[ActorState], part: &Part) -> Result<Option<AnswerDone>, NoMemory>
    ensures { IfOk result (λ answer. answer ≡ answer_of actors.now part.now) }
{
    let Some(desk) = part.desk() else {
        return Ok(None);
    };
    match desk.oldest() {
        Some(question) => Ok(Some(question_answer(actors, desk, question)?)),
        None => Ok(None),
    }
}
