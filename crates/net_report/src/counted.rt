//! What is counted of a run at its last settle. A store's journal is read once.

ghost use Rattle.std.specs.Prelude.{◌≡◌, ◌++◌, IfOk, OnOk, string_bytes};
ghost use Rattle.net_report.specs.Summary.{declared_text, held_text, keys_of_store, keys_of_stores, last_marks, routes_of_nodes};

use kv_table::HeldIndex;
use net_laboratory::Scenario;
use net_record::{NodeMark, Record, SettleDone};
use or_base::{JournalEntry, NoMemory, Seq};
use std::alloc::Global;

/// The nodes at the last settle, none where no settle was done.
fn last_marks(settles: &[SettleDone]) -> &[NodeMark]
    ensures { result.now ≡ last_marks settles.now }
{
    match settles.last() {
        Some(settle) => settle.nodes.as_slice(),
        None => &[],
    }
}

/// How many keys a store holds at a settle.
#[tactic(auto, using(crate::proofs::Totals::places_counted))]
fn keys_of_store(
    alloc: Global,
    journal: &[JournalEntry],
    mark: &NodeMark,
) -> Result<usize, NoMemory>
    ensures { IfOk result (λ count. count ≡ keys_of_store journal.now mark.now) }
{
    let mut index = HeldIndex::new(alloc, journal);
    let count = mark.entries.min(journal.len() as u64) as usize;
    index.take_up_to(count)?;
    Ok(index.places().len())
}

/// How many keys the stores hold, each counted for itself.
#[tactic(auto, using(crate::proofs::Totals::no_marks_counted))]
fn keys_of_stores(
    alloc: Global,
    journals: &[Seq<JournalEntry>],
    marks: &[NodeMark],
) -> Result<u128, NoMemory>
    ensures { IfOk result (λ count. count ≡ keys_of_stores journals.now marks.now) }
{
    let mut count = 0;
    for place in 0..journals.len() {
        let Some(mark) = marks.get(place) else {
            return Ok(count);
        };
        let keys = keys_of_store(alloc, journals[place].as_slice(), mark)?;
        count += keys as u128;
    }
    Ok(count)
}

/// How many routes the nodes have.
fn routes_of_nodes(marks: &[NodeMark]) -> u128
    ensures { result ≡ routes_of_nodes marks.now }
{
    let mut count = 0;
    for mark in marks {
        count += mark.routes.as_slice().len() as u128;
    }
    count
}

/// `grid <n> nodes <nodes> links <links>`
#[tactic(auto, unfolding(crate::specs::Summary::declared_text))]
pub(crate) fn declared_text(
    out: &mut String,
    scenario: &Scenario,
    size: u32,
) -> Result<(), NoMemory>
    ensures { OnOk result (string_bytes out.new ≡ string_bytes out.old ++ declared_text scenario.now size) }
{
    let nodes = scenario.nodes().len();
    let links = scenario.links().len();
    write!(out, "grid {size} nodes {nodes}")?;
    write!(out, " links {links}")?;
    Ok(())
}

/// ` keys <held keys> routes <routes>`, as the last settle has them.
#[tactic(auto, unfolding(crate::specs::Summary::held_text))]
pub(crate) fn held_text(out: &mut String, done: &Record) -> Result<(), NoMemory>
    ensures { OnOk result (string_bytes out.new ≡ string_bytes out.old ++ held_text done.now) }
{
    let marks = last_marks(done.settles.as_slice());
    let keys = keys_of_stores(*out.allocator(), done.journals.as_slice(), marks)?;
    let routes = routes_of_nodes(marks);
    write!(out, " keys {keys} routes {routes}")?;
    Ok(())
}
