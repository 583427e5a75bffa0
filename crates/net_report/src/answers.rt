//! The lines of answers.

ghost use Rattle.std.specs.Prelude.{◌≡◌, ◌++◌, OnOk, string_bytes};
ghost use Rattle.net_report.specs.Report.{answer_line, question_text, told_text};

use crate::lines::value_text;
use crate::routes::{cost_and_hops, text_of_prefix};
use crate::written::ReportLine;
use net_record::AnswerDone;
use or_base::{Asked, Name, NoMemory, Told};

/// `get <node> <key>` or `ask <node> <prefix>`
fn question_text(out: &mut String, node: &Name, asked: &Asked) -> Result<(), NoMemory>
    ensures { OnOk result (string_bytes out.new ≡ string_bytes out.old ++ question_text node.now asked.now) }
{
    let name = node.as_str();
    match asked {
        Asked::Key(key) => {
            let key = key.as_str();
            write!(out, "get {name} {key}")?;
        }
        Asked::Prefix(prefix) => {
            write!(out, "ask {name} ")?;
            text_of_prefix(out, prefix)?;
        }
    }
    Ok(())
}

/// What the desk told, after a space: a value, ` route <cost> <hops>`, ` none` or ` behind <at>`.
fn told_text(out: &mut String, told: &Told) -> Result<(), NoMemory>
    ensures { OnOk result (string_bytes out.new ≡ string_bytes out.old ++ told_text told.now) }
{
    match told {
        Told::Value(value) => {
            out.push_str(" value ")?;
            value_text(out, value)?;
        }
        Told::Route(route) => {
            out.push_str(" route ")?;
            cost_and_hops(out, route)?;
        }
        Told::Nothing => out.push_str(" none")?,
        Told::Behind(at) => write!(out, " behind {at}")?,
    }
    Ok(())
}

/// A question with its answer.
impl ReportLine for AnswerDone {
    ghost line = { answer_line };

    #[tactic(auto, unfolding(crate::specs::Report::answer_line))]
    fn write_line(&self, out: &mut String) -> Result<(), NoMemory> {
        question_text(out, &self.node, &self.asked)?;
        told_text(out, &self.told)?;
        out.push_str("\n")?;
        Ok(())
    }
}
