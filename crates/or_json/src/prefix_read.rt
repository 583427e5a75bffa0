ghost use Rattle.std.specs.Prelude.{◌≡◌, IfOk};
ghost use Rattle.serde_json.specs.View.{view};
ghost use Rattle.or_json.specs.Reading.{prefix_db_of, prefixes_of};

use crate::items::{items_of, keep_limits};
use crate::object::{items_member, json_in, node_name_member};
use or_base::{MOST_PREFIX_ENTRIES, NoMemory, PrefixDb, PrefixEntry, Seq};
use serde_json::Value;
use std::alloc::Global;

/// The prefix record that a value is.
#[tactic(auto, unfolding(crate::specs::Reading::prefix_db_of))]
fn prefix_db_of(alloc: Global, value: &Value) -> Result<Option<PrefixDb>, NoMemory>
    ensures { IfOk result (λ found. found ≡ prefix_db_of (view value.now)) }
{
    let Some(node) = node_name_member(alloc, value, "node")? else {
        return Ok(None);
    };
    let Some(items) = items_member(value, "entries") else {
        return Ok(None);
    };
    let Some(entries) = items_of::<PrefixEntry>(alloc, items)? else {
        return Ok(None);
    };
    if !keep_limits(MOST_PREFIX_ENTRIES, entries.as_slice()) {
        return Ok(None);
    }
    Ok(Some(PrefixDb {
        node,
        entries: Seq::from_vec(entries),
    }))
}

/// The prefix record that a text is. None where it is none.
pub fn prefixes_of(alloc: Global, text: &[u8]) -> Result<Option<PrefixDb>, NoMemory>
    ensures { IfOk result (λ found. found ≡ prefixes_of text.now) }
{
    match json_in(alloc, text)? {
        Some(value) => Ok(prefix_db_of(alloc, &value)?),
        None => Ok(None),
    }
}
