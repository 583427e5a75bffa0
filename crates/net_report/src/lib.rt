//! The report of a run as text: what each settle of a scenario showed, for a reader or for a comparison of runs.
//!
//! The report is a function of the record of a run and of its scenario, defined in `specs/Report.antt`, and `report`
//! returns exactly its bytes. It has a line for each settle that was done, after it a line for each question of the
//! phase with its answer, then the stores of the nodes and their routes where the settle shows them, and `end` as its
//! last line. A store is shown with the full syncs that it started and that were finished in the phase. Nodes that are
//! only stores have no routes to show. Numbers are decimal; a value's bytes are lower case hex; prefixes are as
//! or_prefix prints them.
//!
//! The summary of a run counts what the report of its last settle shows (`specs/Summary.antt`).
//!
//! The files: `written` (what is a line), `lines` (the single lines of settles, stores and turns), `routes` (those of
//! routes), `answers` (those of answers), `stores` (the stores of the nodes at a settle), `text` (what they make up),
//! `counted` (what the summary says). Each function appends to one text, or counts. A store's journal has an index that
//! grows from settle to settle, so the report costs what it writes and, over all settles, one look-up for each entry of a
//! journal.
#![tactic(auto)]

ghost use Rattle.std.specs.Prelude.{◌≡◌, IfOk};
ghost use Rattle.net_report.specs.Report.{report};
ghost use Rattle.net_report.specs.Summary.{summary};

mod answers;
mod counted;
mod lines;
mod routes;
mod stores;
mod text;
mod written;

use crate::counted::{declared_text, held_text};
use crate::text::settles_text;
use net_laboratory::Scenario;
use net_record::Record;
use or_base::NoMemory;
use std::alloc::Global;

/// The report of a run of the scenario, with a trace of its turns or without.
#[tactic(auto, unfolding(crate::specs::Report::report))]
pub fn report(
    alloc: Global,
    done: &Record,
    scenario: &Scenario,
    trace: bool,
) -> Result<Vec<u8>, NoMemory>
    ensures { IfOk result (λ text. text.items ≡ report done.now scenario.now trace) }
{
    let mut out = String::new(alloc);
    settles_text(&mut out, done, scenario, trace)?;
    out.push_str("end\n")?;
    Ok(out.into_bytes())
}

/// What a run of a grid of this size came to: `grid <n> nodes <nodes> links <links> keys <held keys> routes <routes>`, with
/// the keys of all stores and the routes of all nodes at the last settle, ended by LF.
#[tactic(auto, unfolding(crate::specs::Summary::summary))]
pub fn summary(
    alloc: Global,
    done: &Record,
    scenario: &Scenario,
    size: u32,
) -> Result<Vec<u8>, NoMemory>
    ensures { IfOk result (λ text. text.items ≡ summary done.now scenario.now size) }
{
    let mut out = String::new(alloc);
    declared_text(&mut out, scenario, size)?;
    held_text(&mut out, done)?;
    out.push_str("\n")?;
    Ok(out.into_bytes())
}
