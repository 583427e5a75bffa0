//! The lines of routes, and what answers share with them.

ghost use Rattle.std.specs.Prelude.{◌≡◌, ◌++◌, OnOk, string_bytes};
ghost use Rattle.net_report.specs.Report.{cost_and_hops, fib_line, fib_word, with_commas, text_of_prefix, route_line, routes_line};

use crate::written::ReportLine;
use net_record::NodeMark;
use or_base::{Name, NoMemory, Prefix, Route};
use or_prefix::prefix_text;
use std::str;

/// The prefix: its address, `/` and its length.
pub(crate) fn text_of_prefix(out: &mut String, prefix: &Prefix) -> Result<(), NoMemory>
    ensures { OnOk result (string_bytes out.new ≡ string_bytes out.old ++ text_of_prefix prefix.now) }
{
    let text = prefix_text(*out.allocator(), prefix)?;
    match str::from_utf8(text.as_slice()) {
        Ok(text) => out.push_str(text)?,
        // What is printed is UTF-8.
        Err(_fault) => unreachable!(),
    }
    Ok(())
}

/// Interfaces, joined by commas.
#[tactic(auto, using(crate::proofs::Hops::text_steps))]
fn with_commas(out: &mut String, hops: &[Name]) -> Result<(), NoMemory>
    ensures { OnOk result (string_bytes out.new ≡ string_bytes out.old ++ with_commas hops.now) }
{
    if let Some((first, others)) = hops.split_first() {
        out.push_str(first.as_str())?;
        for hop in others {
            let name = hop.as_str();
            write!(out, ",{name}")?;
        }
    }
    Ok(())
}

/// `<cost> <hops>`
pub(crate) fn cost_and_hops(out: &mut String, route: &Route) -> Result<(), NoMemory>
    ensures { OnOk result (string_bytes out.new ≡ string_bytes out.old ++ cost_and_hops route.now) }
{
    let cost = route.cost;
    write!(out, "{cost} ")?;
    with_commas(out, route.hops.as_slice())?;
    Ok(())
}

/// `route <prefix> <cost> <hops>`
impl ReportLine for Route {
    ghost line = { route_line };

    #[tactic(auto, unfolding(crate::specs::Report::route_line))]
    fn write_line(&self, out: &mut String) -> Result<(), NoMemory> {
        out.push_str("route ")?;
        text_of_prefix(out, &self.prefix)?;
        out.push_str(" ")?;
        cost_and_hops(out, self)?;
        out.push_str("\n")?;
        Ok(())
    }
}

/// `routes <node>`
#[tactic(auto, unfolding(crate::specs::Report::routes_line))]
pub(crate) fn routes_line(out: &mut String, node: &Name) -> Result<(), NoMemory>
    ensures { OnOk result (string_bytes out.new ≡ string_bytes out.old ++ routes_line node.now) }
{
    let name = node.as_str();
    write!(out, "routes {name}\n")?;
    Ok(())
}

/// Whether the agent lacks some of the routes.
fn fib_word(out: &mut String, is_dirty: bool) -> Result<(), NoMemory>
    ensures { OnOk result (string_bytes out.new ≡ string_bytes out.old ++ fib_word is_dirty) }
{
    if is_dirty {
        out.push_str("fib dirty ")?;
    } else {
        out.push_str("fib clean ")?;
    }
    Ok(())
}

/// `fib clean <n>` or `fib dirty <n>`: how many routes the agent has.
#[tactic(auto, unfolding(crate::specs::Report::fib_line))]
pub(crate) fn fib_line(out: &mut String, mark: &NodeMark) -> Result<(), NoMemory>
    ensures { OnOk result (string_bytes out.new ≡ string_bytes out.old ++ fib_line mark.now) }
{
    fib_word(out, mark.fib_dirty)?;
    let routes = mark.fib_routes;
    write!(out, "{routes}\n")?;
    Ok(())
}
