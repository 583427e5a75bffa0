ghost use Rattle.std.specs.Prelude.{◌≡◌, ◌<◌, ◌++◌, ◌∷◌, [], map, length, if◌then◌else◌, IfOk, OnOk};
ghost use Rattle.std.specs.Ordering.{ordering_reverse};
ghost use Rattle.kv_value.specs.Hashing.{hash_of};
ghost use Rattle.kv_sync.specs.Difference.{rank_cmp, is_better, is_wanted, better_keys, wanted_keys};
ghost use Rattle.kv_sync.specs.Rows.{row_key, AreInOrder, AreInKeyOrder};
ghost use Rattle.kv_sync.specs.Walk.{held_key, HaveTheirHashes, is_better_row, is_wanted_row, better_among, wanted_among, passes_at, left_of};

use crate::rows::{are_in_key_order, rows_in_order};
use kv_table::{HeldRow, KvTable};
use or_base::{DigestRow, Key, KvValue, NoMemory};
use std::alloc::Global;
use std::cmp::Ordering;

/// How a digest differs from what a table holds. Both lists are in byte order.
#[derive(Drop)]
pub struct Difference {
    /// The keys whose values the digest's sender should get.
    pub better: Vec<Key>,
    /// The keys whose values the digest's sender should give.
    pub wanted: Vec<Key>,
}

/// Compares a held value with a row of its key, by version and originator.
fn rank_cmp(v: &KvValue, row: &DigestRow) -> Ordering
    ensures { result ≡ rank_cmp v.now row.now }
{
    v.version
        .cmp(&row.version)
        .then_with(|| v.originator.as_str().cmp(&row.originator.as_str()))
}

/// Whether the held value is worth sending to a store with this row of its key, and whether what the row stands for is
/// worth having.
#[tactic(auto, unfolding(crate::specs::Difference::is_better, crate::specs::Difference::is_wanted))]
fn compare_values(held: &HeldRow<'_>, row: &DigestRow) -> (bool, bool)
    requires { held.now.hash ≡ hash_of held.now.value.now }
    ensures { result ≡ (is_better held.now.value.now row.now, is_wanted held.now.value.now row.now) }
{
    let v = held.value;
    match rank_cmp(v, row) {
        Ordering::Less => (false, true),
        Ordering::Equal => {
            let differs = held.hash != row.hash;
            (
                differs || row.ttl_version < v.ttl_version,
                differs || v.ttl_version < row.ttl_version,
            )
        }
        Ordering::Greater => (true, false),
    }
}

/// Whether the held row's key is better, and whether the row's is wanted, where both are the first that are left and
/// their keys compare so.
fn compare_firsts(order: Ordering, held: &HeldRow<'_>, row: &DigestRow) -> (bool, bool)
    requires { held.now.hash ≡ hash_of held.now.value.now }
    ensures { result ≡ (
      passes_at order is_better_row held.now row.now,
      passes_at (ordering_reverse order) is_wanted_row row.now held.now,
    ) }
{
    match order {
        Ordering::Less => (true, false),
        Ordering::Equal => compare_values(held, row),
        Ordering::Greater => (false, true),
    }
}

/// Appends the key, if it is to be.
fn add_if(keys: &mut Vec<Key>, is_added: bool, key: &Key) -> Result<(), NoMemory>
    ensures { OnOk result (keys.new.items ≡ keys.old.items ++ (if is_added then key.now ∷ [] else [])) }
{
    if is_added {
        keys.push(key.copied()?)?;
    }
    Ok(())
}

/// Appends the keys of the held rows.
fn add_held(keys: &mut Vec<Key>, held: &[HeldRow<'_>]) -> Result<(), NoMemory>
    ensures { OnOk result (keys.new.items ≡ keys.old.items ++ map held_key held.now) }
{
    for row in held {
        keys.push(row.key.copied()?)?;
    }
    Ok(())
}

/// Appends the keys of the rows.
fn add_rows(keys: &mut Vec<Key>, rows: &[DigestRow]) -> Result<(), NoMemory>
    ensures { OnOk result (keys.new.items ≡ keys.old.items ++ map row_key rows.now) }
{
    for row in rows {
        keys.push(row.key.copied()?)?;
    }
    Ok(())
}

/// The items without the first, if that is done with.
fn left_of<T>(items: &[T], is_done: bool) -> &[T]
    requires { 0 < length items.now }
    ensures { result.now ≡ left_of is_done items.now }
{
    if is_done { &items[1..] } else { items }
}

/// How rows differ from held rows, by one walk over both. Both are in byte order of keys.
#[tactic(auto, using(crate::proofs::Walking::fewer_left))]
fn difference_of(
    alloc: Global,
    rows: &[DigestRow],
    held: &[HeldRow<'_>],
) -> Result<Difference, NoMemory>
    requires rows_order { AreInKeyOrder rows.now }
    requires held_order { AreInOrder held_key held.now }
    requires hashes { HaveTheirHashes held.now }
    ensures better { IfOk result (λ difference. difference.better.items ≡ better_among held.now rows.now) }
    ensures wanted { IfOk result (λ difference. difference.wanted.items ≡ wanted_among rows.now held.now) }
{
    let (mut better, mut wanted) = (Vec::new(alloc), Vec::new(alloc));
    let (mut held_left, mut rows_left) = (held, rows);
    while !held_left.is_empty() && !rows_left.is_empty() {
        let (held_row, row) = (&held_left[0], &rows_left[0]);
        let order = held_row.key.cmp(&row.key);
        let (is_better, is_wanted) = compare_firsts(order, held_row, row);
        add_if(&mut better, is_better, held_row.key)?;
        add_if(&mut wanted, is_wanted, &row.key)?;
        held_left = left_of(held_left, order.is_le());
        rows_left = left_of(rows_left, order.is_ge());
    }
    add_held(&mut better, held_left)?;
    add_rows(&mut wanted, rows_left)?;
    Ok(Difference { better, wanted })
}

/// How rows in byte order of keys differ from what the table holds.
#[tactic(auto, using(crate::proofs::Compared::a_walk_compares))]
fn diff_in_order(alloc: Global, rows: &[DigestRow], table: &KvTable) -> Result<Difference, NoMemory>
    requires { AreInKeyOrder rows.now }
    ensures better { IfOk result (λ difference. difference.better.items ≡ better_keys rows.now table.now) }
    ensures wanted { IfOk result (λ difference. difference.wanted.items ≡ wanted_keys rows.now table.now) }
{
    let held = table.held_rows()?;
    difference_of(alloc, rows, held.as_slice())
}

/// How the digest of another store differs from what the table holds.
#[tactic(auto, using(crate::proofs::Compared::order_is_the_same))]
pub fn diff(alloc: Global, digest: &[DigestRow], table: &KvTable) -> Result<Difference, NoMemory>
    ensures better { IfOk result (λ difference. difference.better.items ≡ better_keys digest.now table.now) }
    ensures wanted { IfOk result (λ difference. difference.wanted.items ≡ wanted_keys digest.now table.now) }
{
    if are_in_key_order(digest) {
        return diff_in_order(alloc, digest, table);
    }
    let rows = rows_in_order(alloc, digest)?;
    diff_in_order(alloc, rows.as_slice(), table)
}
