ghost use Rattle.std.specs.Prelude.{◌≡◌, true, IfOk};
ghost use Rattle.kv_sync.specs.Rows.{AreInKeyOrder, rows_by_key, rows_in_order};

use or_base::{DigestRow, Key, NoMemory};
use std::alloc::Global;
use std::collections::BTreeMap;

/// Whether the keys of the rows rise.
pub(crate) fn are_in_key_order(rows: &[DigestRow]) -> bool
    ensures { result ≡ true → AreInKeyOrder rows.now }
{
    rows.is_sorted_by(|row, next| row.key < next.key)
}

/// The first row of each key, under its key. The rows may come in any order.
#[tactic(auto, using(crate::proofs::InOrder::rows_onto_last, crate::proofs::InOrder::none_left))]
fn rows_by_key(alloc: Global, rows: &[DigestRow]) -> Result<BTreeMap<Key, DigestRow>, NoMemory>
    ensures { IfOk result (λ first. first.entries ≡ rows_by_key rows.now) }
{
    let mut first = BTreeMap::new(alloc);
    let mut left = rows;
    while let Some((row, others)) = left.split_last() {
        first.insert(row.key.copied()?, row.copied()?)?;
        left = others;
    }
    Ok(first)
}

/// The first row of each key, in byte order of keys. The rows may come in any order.
pub(crate) fn rows_in_order(alloc: Global, rows: &[DigestRow]) -> Result<Vec<DigestRow>, NoMemory>
    ensures { IfOk result (λ ordered. ordered.items ≡ rows_in_order rows.now) }
{
    let mut ordered = Vec::new(alloc);
    for row in rows_by_key(alloc, rows)?.into_values() {
        ordered.push(row)?;
    }
    Ok(ordered)
}
