ghost use Rattle.std.specs.Prelude.{◌≡◌, IfOk};
ghost use Rattle.ls_records.specs.Change.{known_after};
ghost use Rattle.decision_core.specs.Scratch.{scratch};

use crate::routing::{routes_over, table_over};
use ls_records::{Records, each_entry_is_taken};
use ls_routes::RouteDb;
use or_base::{JournalEntry, Name, NoMemory};
use std::alloc::Global;

/// The records of the node `me` after these entries.
fn records_after(alloc: Global, me: Name, entries: &[JournalEntry]) -> Result<Records, NoMemory>
    ensures { IfOk result (λ records. records ≡ known_after me entries.now) }
{
    each_entry_is_taken();
    let mut records = Records::new(alloc, me);
    for entry in entries {
        let _change = records.take(entry)?;
    }
    Ok(records)
}

/// The routes of the node `me` from scratch over these entries of its store's journal.
#[tactic(auto, unfolding(crate::specs::Scratch::scratch))]
pub fn scratch(alloc: Global, me: &Name, entries: &[JournalEntry]) -> Result<RouteDb, NoMemory>
    ensures { IfOk result (λ routes. routes ≡ scratch me.now entries.now) }
{
    let records = records_after(alloc, me.copied()?, entries)?;
    let table = table_over(alloc, &records)?;
    routes_over(alloc, &records, &table)
}
