//! The texts of the statuses other than 0.

ghost use Rattle.std.specs.Prelude.{◌≡◌, IfOk};
ghost use Rattle.openr_lab.specs.Answer.{fault_text, fault_line, unsettled_line, bad_turn_line};

use net_scenario::ScenarioFault;
use or_base::{Bytes, NoMemory};
use std::alloc::Global;

pub const USAGE: &[u8] =
    b"usage: openr_lab [--workers n] [--size n] [--trace] replay|live|gen|check\n";

pub const NOT_BUILT: &[u8] = b"not built\n";

/// `fault line <line> number <number> <name>`
fn fault_text(alloc: Global, line: u64, number: u64, name: &str) -> Result<Bytes, NoMemory>
    ensures { IfOk result (λ text. text ≡ fault_text line number name.now) }
{
    let mut text = format!(in alloc; "fault line {line} number {number} ")?;
    text.push_str(name)?;
    text.push_str("\n")?;
    Ok(Bytes::from_vec(text.into_bytes()))
}

/// The line that tells a fault.
#[tactic(auto, unfolding(crate::specs::Answer::fault_line))]
pub fn fault_line(alloc: Global, fault: ScenarioFault) -> Result<Bytes, NoMemory>
    ensures { IfOk result (λ text. text ≡ fault_line fault) }
{
    Ok(fault_text(alloc, fault.line, fault.kind.number(), fault.kind.name())?)
}

/// `unsettled in settle <k>`: an item still waits after the last round of that settle, or there the run exceeded its
/// budget (500,000 turns, or a weight of 2^30).
pub fn unsettled_line(alloc: Global, settle: u64) -> Result<Bytes, NoMemory>
    ensures { IfOk result (λ text. text ≡ unsettled_line settle) }
{
    let text = format!(in alloc; "unsettled in settle {settle}\n")?;
    Ok(Bytes::from_vec(text.into_bytes()))
}

/// `bad turn <index>`: the given turn with this index, from 0, can't be done.
pub fn bad_turn_line(alloc: Global, index: u64) -> Result<Bytes, NoMemory>
    ensures { IfOk result (λ text. text ≡ bad_turn_line index) }
{
    let text = format!(in alloc; "bad turn {index}\n")?;
    Ok(Bytes::from_vec(text.into_bytes()))
}
