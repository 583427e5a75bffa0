ghost use Rattle.std.specs.Prelude.{◌≡◌, IfOk};
ghost use Rattle.serde_json.specs.View.{view};
ghost use Rattle.or_json.specs.Reading.{adj_db_of, adj_of};

use crate::items::{items_of, keep_limits};
use crate::object::{flag_member, items_member, json_in, node_name_member};
use or_base::{AdjDb, Adjacency, MOST_ADJACENCIES, NoMemory, Seq};
use serde_json::Value;
use std::alloc::Global;

/// The link record that a value is.
#[tactic(auto, unfolding(crate::specs::Reading::adj_db_of))]
fn adj_db_of(alloc: Global, value: &Value) -> Result<Option<AdjDb>, NoMemory>
    ensures { IfOk result (λ found. found ≡ adj_db_of (view value.now)) }
{
    let Some(node) = node_name_member(alloc, value, "node")? else {
        return Ok(None);
    };
    let Some(overload) = flag_member(value, "overload") else {
        return Ok(None);
    };
    let Some(items) = items_member(value, "adjacencies") else {
        return Ok(None);
    };
    let Some(adjacencies) = items_of::<Adjacency>(alloc, items)? else {
        return Ok(None);
    };
    if !keep_limits(MOST_ADJACENCIES, adjacencies.as_slice()) {
        return Ok(None);
    }
    Ok(Some(AdjDb {
        node,
        overload,
        adjacencies: Seq::from_vec(adjacencies),
    }))
}

/// The link record that a text is. None where it is none.
pub fn adj_of(alloc: Global, text: &[u8]) -> Result<Option<AdjDb>, NoMemory>
    ensures { IfOk result (λ found. found ≡ adj_of text.now) }
{
    match json_in(alloc, text)? {
        Some(value) => Ok(adj_db_of(alloc, &value)?),
        None => Ok(None),
    }
}
