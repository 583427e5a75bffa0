//! What the lines make up: the routes of the nodes at a settle, and the settles of a run.

ghost use Rattle.std.specs.Prelude.{◌≡◌, ◌++◌, OnOk, string_bytes};
ghost use Rattle.net_report.specs.Report.{node_routes_text, phase_text, routes_text, settle_text, settles_text, shown_text, prints_routes, shows_stores, trace_text, turns_of_phase};
ghost use Rattle.net_report.specs.Indexes.{journals_of};

use crate::lines::settle_line;
use crate::routes::{fib_line, routes_line};
use crate::stores::{indexes_of, stores_text};
use crate::written::write_lines;
use kv_table::HeldIndex;
use net_laboratory::{Command, Kind, NodeDecl, Scenario, Show};
use net_record::{NodeMark, Record, SettleDone, shows_routes};
use or_base::{Name, NoMemory, TurnDone};

/// A node's routes at a settle, and how its forwarding agent stands.
#[tactic(auto, unfolding(crate::specs::Report::node_routes_text))]
fn node_routes_text(out: &mut String, node: &Name, mark: &NodeMark) -> Result<(), NoMemory>
    ensures { OnOk result (string_bytes out.new ≡ string_bytes out.old ++ node_routes_text node.now mark.now) }
{
    routes_line(out, node)?;
    write_lines(out, mark.routes.as_slice())?;
    fib_line(out, mark)?;
    Ok(())
}

/// The routes of the nodes, in order.
fn routes_text(out: &mut String, nodes: &[NodeDecl], marks: &[NodeMark]) -> Result<(), NoMemory>
    ensures { OnOk result (string_bytes out.new ≡ string_bytes out.old ++ routes_text nodes.now marks.now) }
{
    for (node, mark) in nodes.iter().zip(marks) {
        node_routes_text(out, &node.name, mark)?;
    }
    Ok(())
}

/// Whether the nodes' stores are shown.
fn shows_stores(show: Show) -> bool
    ensures { result ≡ shows_stores show }
{
    match show {
        Show::Both | Show::Stores => true,
        Show::Routes | Show::Nothing => false,
    }
}

/// Whether the nodes' routes are printed: a store has none.
fn prints_routes(kind: Kind, show: Show) -> bool
    ensures { result ≡ prints_routes kind show }
{
    match kind {
        Kind::Full => shows_routes(show),
        Kind::Stores => false,
    }
}

/// What a settle shows besides its line and the answers.
#[tactic(auto, unfolding(crate::specs::Report::shown_text))]
fn shown_text(
    out: &mut String,
    kind: Kind,
    show: Show,
    nodes: &[NodeDecl],
    indexes: &mut Vec<HeldIndex<'_>>,
    settle: &SettleDone,
) -> Result<(), NoMemory>
    ensures text { OnOk result (string_bytes out.new ≡ string_bytes out.old ++ shown_text kind show nodes.now (journals_of indexes.old.items) settle.now) }
    ensures journals { journals_of indexes.new.items ≡ journals_of indexes.old.items }
{
    if shows_stores(show) {
        stores_text(out, nodes, indexes, settle.nodes.as_slice(), settle.moment)?;
    }
    if prints_routes(kind, show) {
        routes_text(out, nodes, settle.nodes.as_slice())?;
    }
    Ok(())
}

/// A settle with its number: its line, the answers of its phase, and what it shows.
#[tactic(auto, unfolding(crate::specs::Report::settle_text))]
fn settle_text(
    out: &mut String,
    k: u64,
    kind: Kind,
    show: Show,
    nodes: &[NodeDecl],
    indexes: &mut Vec<HeldIndex<'_>>,
    settle: &SettleDone,
) -> Result<(), NoMemory>
    ensures text { OnOk result (string_bytes out.new ≡ string_bytes out.old ++ settle_text k kind show nodes.now (journals_of indexes.old.items) settle.now) }
    ensures journals { journals_of indexes.new.items ≡ journals_of indexes.old.items }
{
    settle_line(out, k, settle.moment)?;
    write_lines(out, settle.answers.as_slice())?;
    shown_text(out, kind, show, nodes, indexes, settle)?;
    Ok(())
}

/// Turns, where a trace is wanted.
fn trace_text(out: &mut String, trace: bool, turns: &[TurnDone]) -> Result<(), NoMemory>
    ensures { OnOk result (string_bytes out.new ≡ string_bytes out.old ++ trace_text trace turns.now) }
{
    if trace {
        write_lines(out, turns)?;
    }
    Ok(())
}

/// The turns of a phase, of which so many were done before it and so many at its settle.
fn turns_of_phase(turns: &[TurnDone], before: u64, at_settle: u64) -> &[TurnDone]
    ensures { result.now ≡ turns_of_phase turns.now before at_settle }
{
    let (phase, _later) = turns.split_at(at_settle.min(turns.len() as u64) as usize);
    let (_before, own) = phase.split_at(before.min(phase.len() as u64) as usize);
    own
}

/// A settle with its number, behind the turns of its phase where a trace is wanted.
#[tactic(auto, unfolding(crate::specs::Report::phase_text))]
fn phase_text(
    out: &mut String,
    done: &Record,
    indexes: &mut Vec<HeldIndex<'_>>,
    scenario: &Scenario,
    trace: bool,
    k: u64,
    show: Show,
    before: u64,
    settle: &SettleDone,
) -> Result<(), NoMemory>
    requires { journals_of indexes.old.items ≡ done.now.journals }
    ensures text { OnOk result (string_bytes out.new ≡ string_bytes out.old
        ++ phase_text done.now scenario.now trace (k, record { show = show; before = before; settle = settle.now })) }
    ensures journals { journals_of indexes.new.items ≡ journals_of indexes.old.items }
{
    let turns = turns_of_phase(done.turns.as_slice(), before, settle.turns);
    trace_text(out, trace, turns)?;
    let nodes = scenario.nodes.as_slice();
    settle_text(out, k, scenario.kind, show, nodes, indexes, settle)?;
    Ok(())
}

/// The settles, in order: the first is that of the first settle command and has the number 1. With a trace the turns
/// of each phase stand before its settle.
pub(crate) fn settles_text(
    out: &mut String,
    done: &Record,
    scenario: &Scenario,
    trace: bool,
) -> Result<(), NoMemory>
    ensures { OnOk result (string_bytes out.new ≡ string_bytes out.old ++ settles_text done.now scenario.now trace) }
{
    let mut indexes = indexes_of(*out.allocator(), done.journals.as_slice())?;
    let mut k = 1;
    let mut before = 0;
    let mut left = done.settles.as_slice();
    for command in scenario.commands.as_slice() {
        if let Command::Settle { show, .. } = command {
            let Some((settle, later)) = left.split_first() else {
                return Ok(());
            };
            phase_text(
                out,
                done,
                &mut indexes,
                scenario,
                trace,
                k,
                *show,
                before,
                settle,
            )?;
            k += 1;
            before = settle.turns;
            left = later;
        }
    }
    Ok(())
}
