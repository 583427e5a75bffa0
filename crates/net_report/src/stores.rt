//! The stores of the nodes at a settle. Each journal has an index that grows from settle to settle, so no settle reads again
//! the entries that an earlier one has read.

ghost use Rattle.std.specs.Prelude.{◌≡◌, ◌++◌, IfOk, OnOk, string_bytes};
ghost use Rattle.kv_table.specs.Index.{entries_taken, merged_at};
ghost use Rattle.net_report.specs.Report.{held_line, held_lines, store_text, stores_text};
ghost use Rattle.net_report.specs.Indexes.{journals_of};

use crate::lines::{key_line, store_line};
use crate::written::write_lines;
use kv_table::{HeldIndex, merged_at};
use net_laboratory::NodeDecl;
use net_record::NodeMark;
use or_base::{JournalEntry, Key, Name, NoMemory, Seq};
use std::alloc::Global;

/// An index of each journal, that has taken no entry yet.
pub(crate) fn indexes_of<'a>(
    alloc: Global,
    journals: &'a [Seq<JournalEntry>],
) -> Result<Vec<HeldIndex<'a>>, NoMemory>
    ensures { IfOk result (λ indexes. journals_of indexes.items ≡ journals.now) }
{
    let mut indexes = Vec::new(alloc);
    for journal in journals {
        indexes.push(HeldIndex::new(alloc, journal.as_slice()))?;
    }
    Ok(indexes)
}

/// The line of a key, where the entry at the place merged something.
fn held_line(
    out: &mut String,
    key: &Key,
    journal: &[JournalEntry],
    place: usize,
    moment: u64,
) -> Result<(), NoMemory>
    ensures { OnOk result (string_bytes out.new ≡ string_bytes out.old ++ held_line key.now (merged_at journal.now place) moment) }
{
    if let Some(held) = merged_at(journal, place) {
        key_line(out, key, held.value, held.merged_at, moment)?;
    }
    Ok(())
}

/// A line for each key that the entries taken hold, in byte order.
fn held_lines(out: &mut String, index: &HeldIndex<'_>, moment: u64) -> Result<(), NoMemory>
    ensures { OnOk result (string_bytes out.new ≡ string_bytes out.old ++ held_lines (entries_taken index.now) moment) }
{
    let journal = index.journal();
    for (key, place) in index.places() {
        held_line(out, key, journal, *place, moment)?;
    }
    Ok(())
}

/// A node's store at a settle: what the first entries of its journal hold, as many as it had then, and the full syncs
/// that it started and that were finished in the phase.
#[tactic(auto, unfolding(crate::specs::Report::store_text))]
fn store_text(
    out: &mut String,
    node: &Name,
    index: &mut HeldIndex<'_>,
    mark: &NodeMark,
    moment: u64,
) -> Result<(), NoMemory>
    ensures text { OnOk result (string_bytes out.new ≡ string_bytes out.old ++ store_text node.now index.old.journal mark.now moment) }
    ensures journal { index.new.journal ≡ index.old.journal }
{
    store_line(out, node, mark)?;
    let count = mark.entries.min(index.journal().len() as u64) as usize;
    index.take_up_to(count)?;
    held_lines(out, index, moment)?;
    write_lines(out, mark.syncs.as_slice())?;
    Ok(())
}

/// The stores of the nodes, in order.
pub(crate) fn stores_text(
    out: &mut String,
    nodes: &[NodeDecl],
    indexes: &mut Vec<HeldIndex<'_>>,
    marks: &[NodeMark],
    moment: u64,
) -> Result<(), NoMemory>
    ensures text { OnOk result (string_bytes out.new ≡ string_bytes out.old ++ stores_text nodes.now (journals_of indexes.old.items) marks.now moment) }
    ensures journals { journals_of indexes.new.items ≡ journals_of indexes.old.items }
{
    for place in 0..indexes.len() {
        let Some(node) = nodes.get(place) else {
            return Ok(());
        };
        let Some(mark) = marks.get(place) else {
            return Ok(());
        };
        let index = &mut indexes[place];
        store_text(out, &node.name, index, mark, moment)?;
    }
    Ok(())
}
