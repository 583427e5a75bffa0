//! A scenario as bytes: its lines, read one after another.

ghost use Rattle.std.specs.Prelude.{◌≡◌, ◌+◌, ◌<◌, ◌≤◌, ◌∷◌, true, false, min, length, IfOk, OnOk, IfSome};
ghost use Rattle.net_scenario.specs.Faults.{line_of};
ghost use Rattle.net_scenario.specs.Gives.{GivesSeen, GivesScenario};
ghost use Rattle.net_scenario.specs.Language.{is_blank_byte, is_blank, is_all_blank, lines_in, fault_at, after_line, line_step, scenario_of};
ghost use Rattle.net_laboratory.specs.Limits.{most_scenario_bytes};
ghost use Rattle.net_laboratory.specs.Amounts.{ends_in_settle};
ghost use Rattle.net_scenario.specs.Seen.{with_line, admits, with_last_settle, schedule_given, scenario_in};
ghost use Rattle.net_scenario.specs.Tallied.{seen_in, line_at, IsTallied};
ghost use Rattle.net_scenario.specs.TurnLines.{takes_turn, SaysTurn};
ghost use Rattle.net_scenario.specs.declared.fault.ReadRefusal.TheVariants.{Fault};
ghost use Rattle.net_scenario.specs.declared.statement.Statement.TheVariants as says;

use crate::draft::Draft;
use crate::fault::{FaultKind, LineRefusal, ReadRefusal, ScenarioFault};
use crate::line::{LineRead, read_line};
use crate::statement::Statement;
use crate::turn_lines::TurnLines;
use net_laboratory::{Command, DEFAULT_ROUNDS, MOST_TURNS, Scenario, Schedule, Show, Turn};
use or_base::{NoMemory, Seq};
use std::alloc::Global;

/// Space, tab or CR.
fn is_blank_byte(byte: u8) -> bool
    ensures { result ≡ is_blank_byte byte }
{
    byte == b' ' || byte == b'\t' || byte == b'\r'
}

/// The line says nothing.
fn is_blank(text: &[u8]) -> bool
    ensures { result ≡ is_blank text.now }
{
    text.iter().all(|&byte| is_blank_byte(byte))
}

/// Every line says nothing.
fn is_all_blank(bytes: &[u8]) -> bool
    ensures { result ≡ is_all_blank bytes.now }
{
    bytes
        .iter()
        .all(|&byte| is_blank_byte(byte) || byte == b'\n')
}

/// The first line without its LF, and what comes after it.
#[tactic(auto, using(crate::proofs::Cuts::cuts, std::proofs::lemmas::List::take_rest))]
fn first_line(bytes: &[u8]) -> (&[u8], &[u8])
    requires { 0 < length bytes.now }
    ensures line { lines_in bytes.now ≡ result.0.now ∷ lines_in result.1.now }
    ensures less { length result.1.now < length bytes.now }
    ensures all { min (length result.0.now + 1) (length bytes.now) + length result.1.now ≡ length bytes.now }
{
    let mut count = 0;
    while count < bytes.len() {
        if bytes[count] == b'\n' {
            return (&bytes[..count], &bytes[count + 1..]);
        }
        count += 1;
    }
    (bytes, &bytes[count..])
}

/// A fault of the line.
fn fault_at(line: &LineRead<'_>, kind: FaultKind) -> ReadRefusal
    ensures { result ≡ Fault (fault_at line.now.number kind) }
{
    ReadRefusal::Fault(ScenarioFault {
        line: line.number,
        kind,
    })
}

/// A turn line may stand here.
fn takes_turn(draft: &Draft, line: &LineRead<'_>) -> bool
    ensures { result ≡ takes_turn (seen_in draft.now) line.now.turns (line_at line.now) }
{
    line.turns && draft.kind.is_some() && draft.turns.len() < MOST_TURNS && !line.is_late()
}

/// The turn that the line says, where it may stand here and its text was read as a turn line before.
fn turn_again(draft: &Draft, lines: &TurnLines<'_>, line: &LineRead<'_>) -> Option<Turn>
    ensures adds { IfSome result (λ turn. line_step (seen_in draft.now) line.now.turns (line_at line.now) ≡ Ok (with_line (seen_in draft.now) (says.Turn turn))) }
    ensures admitted { IfSome result (λ turn. admits (seen_in draft.now) (says.Turn turn) ≡ true) }
{
    if draft.turns.is_empty() || !takes_turn(draft, line) {
        return None;
    }
    lines.turn_of(line.text)
}

/// Keeps the turn that a line of this text says, if it says one.
fn keep_turn<'a>(
    lines: &mut TurnLines<'a>,
    text: &'a [u8],
    statement: &Statement,
) -> Result<(), NoMemory>
    requires { (turn : Turn) → statement.now ≡ says.Turn turn → SaysTurn text.now turn }
{
    if let Statement::Turn { turn } = statement {
        lines.keep(text, *turn)?;
    }
    Ok(())
}

/// Reads a line that isn't blank into the draft.
#[tactic(auto, using(crate::proofs::Admitted::line_admitted))]
fn read_statement<'a>(
    alloc: Global,
    draft: &mut Draft,
    lines: &mut TurnLines<'a>,
    line: &LineRead<'a>,
) -> Result<(), ReadRefusal>
    requires tallied { IsTallied draft.old }
    requires filled { is_blank line.now.text.now ≡ false }
    ensures gives { GivesSeen (seen_in draft.new) result
        (after_line (seen_in draft.old) line.now.number (line_of (seen_in draft.old) line.now.turns (line_at line.now))) }
    ensures tallied { OnOk result (IsTallied draft.new) }
{
    match read_line(alloc, draft, line) {
        Ok(statement) => {
            keep_turn(lines, line.text, &statement)?;
            draft.add(alloc, statement)?;
            Ok(())
        }
        Err(LineRefusal::Fault { kind }) => Err(fault_at(line, kind)),
        Err(LineRefusal::NoMemory) => Err(ReadRefusal::NoMemory),
    }
}

/// Reads a line into the draft.
#[tactic(auto, unfolding(crate::specs::Language::line_step))]
fn read_into<'a>(
    alloc: Global,
    draft: &mut Draft,
    lines: &mut TurnLines<'a>,
    line: &LineRead<'a>,
) -> Result<(), ReadRefusal>
    requires { IsTallied draft.old }
    ensures gives { GivesSeen (seen_in draft.new) result (line_step (seen_in draft.old) line.now.turns (line_at line.now)) }
    ensures tallied { OnOk result (IsTallied draft.new) }
{
    if let Some(turn) = turn_again(draft, lines, line) {
        draft.add_turn(turn)?;
        return Ok(());
    }
    if !is_blank(line.text) {
        return read_statement(alloc, draft, lines, line);
    }
    if line.is_late() {
        return Err(fault_at(line, FaultKind::TooLong));
    }
    Ok(())
}

/// The commands, with a settle at their end.
fn with_last_settle(commands: Vec<Command>, is_settled: bool) -> Result<Vec<Command>, NoMemory>
    requires { is_settled ≡ ends_in_settle commands.items }
    ensures { IfOk result (λ all. all.items ≡ with_last_settle commands.items) }
{
    let mut all = commands;
    if !is_settled {
        all.push(Command::Settle {
            rounds: DEFAULT_ROUNDS,
            show: Show::Both,
        })?;
    }
    Ok(all)
}

/// The turns, where there are some.
fn schedule_given(turns: Vec<Turn>) -> Option<Schedule>
    ensures { result ≡ schedule_given turns.items }
{
    if turns.is_empty() {
        return None;
    }
    Some(Schedule {
        turns: Seq::from_vec(turns),
    })
}

/// The scenario that the lines say.
#[tactic(auto, unfolding(crate::specs::Seen::scenario_in), using(crate::proofs::Soundness::scenario_is_sound))]
fn scenario_in(draft: Draft) -> Result<Scenario, NoMemory>
    requires { IsTallied draft }
    ensures { IfOk result (λ scenario. scenario ≡ scenario_in (seen_in draft)) }
{
    let kind = draft.kind();
    let commands = with_last_settle(draft.commands, draft.tally.is_settled)?;
    Ok(Scenario::new(
        kind,
        draft.ttl,
        Seq::from_vec(draft.nodes),
        Seq::from_vec(draft.links),
        Seq::from_vec(commands),
        schedule_given(draft.turns),
    ))
}

/// The scenario that bytes are, with turn lines only where `turns` is true; or the first faulty line with the lowest
/// number of a fault. The time grows in proportion to the bytes, and a scenario has at most [`MOST_SCENARIO_BYTES`](net_laboratory::MOST_SCENARIO_BYTES).
#[tactic(auto, unfolding(crate::specs::Language::scenario_of), using(crate::proofs::Cuts::lines_from_next))]
pub fn read_scenario(alloc: Global, bytes: &[u8], turns: bool) -> Result<Scenario, ReadRefusal>
    ensures gives { GivesScenario result (scenario_of bytes.now turns) }
    ensures few { OnOk result (length bytes.now ≤ most_scenario_bytes) }
{
    if is_all_blank(bytes) {
        return Err(ReadRefusal::Fault(ScenarioFault {
            line: 1,
            kind: FaultKind::NoLab,
        }));
    }
    let mut draft = Draft::new(alloc);
    let mut lines = TurnLines::new(alloc);
    let mut left = bytes;
    let mut number = 1;
    while !left.is_empty() {
        let (text, rest) = first_line(left);
        let line = LineRead {
            text,
            number,
            end: (bytes.len() - rest.len()) as u64,
            turns,
        };
        read_into(alloc, &mut draft, &mut lines, &line)?;
        number += 1;
        left = rest;
    }
    Ok(scenario_in(draft)?)
}
