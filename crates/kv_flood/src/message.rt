ghost use Rattle.std.specs.Prelude.{◌≡◌, ◌++◌, ◌∷◌, [], IfOk};
ghost use Rattle.kv_flood.specs.Flooding.{flood_of, flood_message};

use kv_table::KvTable;
use or_base::{Key, Msg, Name, NoMemory, Pair, Seq};
use std::alloc::Global;

/// The nodes that the flood has passed, followed by this one.
fn passed_with(alloc: Global, passed: &[Name], me: &Name) -> Result<Vec<Name>, NoMemory>
    ensures { IfOk result (λ names. names.items ≡ passed.now ++ me.now ∷ []) }
{
    let mut names = Vec::with_capacity(alloc, passed.len() + 1)?;
    for name in passed {
        names.push(name.copied()?)?;
    }
    names.push(me.copied()?)?;
    Ok(names)
}

/// The flood of the pairs; none without pairs.
fn flood_of(
    alloc: Global,
    passed: &[Name],
    me: &Name,
    pairs: Vec<Pair>,
) -> Result<Option<Msg>, NoMemory>
    ensures { IfOk result (λ msg. msg ≡ flood_of passed.now me.now pairs.items) }
{
    if pairs.is_empty() {
        return Ok(None);
    }
    let names = passed_with(alloc, passed, me)?;
    Ok(Some(Msg::Flood {
        passed: Seq::from_vec(names),
        pairs: Seq::from_vec(pairs),
    }))
}

/// The flood of what the table holds under the keys at the moment `now` in milliseconds, each with the lifetime with
/// which it is sent. It has passed these nodes and passes `me`. None where nothing is sent.
#[tactic(auto, unfolding(crate::specs::Flooding::flood_message))]
pub fn flood_message(
    alloc: Global,
    table: &KvTable,
    now: u64,
    keys: &[Key],
    passed: &[Name],
    me: &Name,
) -> Result<Option<Msg>, NoMemory>
    ensures { IfOk result (λ msg. msg ≡ flood_message table.now now keys.now passed.now me.now) }
{
    let pairs = table.sent_pairs(now, keys)?;
    let msg = flood_of(alloc, passed, me, pairs)?;
    Ok(msg)
}
