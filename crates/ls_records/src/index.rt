ghost use Rattle.std.specs.Prelude.{◌≡◌, ℕ, List, [], cond, None, fold, option_copied, IfOk, OnOk};
ghost use Rattle.std.specs.List.Sorted.{IsStrictlySortedBy};
ghost use Rattle.std.specs.Map.{lookup};
ghost use Rattle.std.specs.BTreeMap.{is_at};
ghost use Rattle.or_base.specs.Order.{bytes_cmp};
ghost use Rattle.or_base.specs.declared.prefix.Prefix.{Prefix};
ghost use Rattle.or_base.specs.Prefixes.{prefix_cmp};
ghost use Rattle.ls_records.specs.Index.{IsTold, entry_told, one_added, one_withdrawn, added, withdrawn, is_same_entry, stands, with_changed, changed_prefixes};

use or_base::{Name, NoMemory, Prefix, PrefixEntry};
use std::alloc::Global;
use std::collections::{BTreeMap, BTreeSet};

/// Who advertises a prefix, for each that somebody does.
pub type Index = BTreeMap<Prefix, BTreeMap<Name, PrefixEntry>>;

/// The node's entry for a prefix.
fn entry_told<'a>(index: &'a Index, prefix: &Prefix, node: &Name) -> Option<&'a PrefixEntry>
    ensures { option_copied result ≡ entry_told index.now.entries prefix.now node.now }
{
    match index.get(prefix) {
        Some(all) => all.get(node),
        None => None,
    }
}

/// Takes out those who advertise a prefix.
fn take_all(alloc: Global, index: &mut Index, prefix: &Prefix) -> BTreeMap<Name, PrefixEntry>
    ensures own { (node : List ℕ) → lookup (is_at (bytes_cmp node)) result.entries ≡ entry_told index.old.entries prefix.now node }
    ensures left { (q : Prefix) → lookup (is_at (prefix_cmp q)) index.new.entries ≡ cond (is_at (prefix_cmp prefix.now) q) None (lookup (is_at (prefix_cmp q)) index.old.entries) }
{
    match index.remove(prefix) {
        Some(all) => all,
        None => BTreeMap::new(alloc),
    }
}

/// The node advertises this entry.
fn add(alloc: Global, index: &mut Index, node: &Name, entry: &PrefixEntry) -> Result<(), NoMemory>
    ensures { OnOk result (IsTold index.old.entries index.new.entries node.now (one_added entry.now)) }
{
    let mut all = take_all(alloc, index, &entry.prefix);
    all.insert(node.copied()?, *entry)?;
    index.insert(entry.prefix, all)?;
    Ok(())
}

/// The node doesn't advertise the prefix.
fn withdraw(alloc: Global, index: &mut Index, node: &Name, prefix: &Prefix) -> Result<(), NoMemory>
    ensures { OnOk result (IsTold index.old.entries index.new.entries node.now (one_withdrawn prefix.now)) }
{
    let mut all = take_all(alloc, index, prefix);
    all.remove(node);
    if !all.is_empty() {
        index.insert(*prefix, all)?;
    }
    Ok(())
}

/// The node advertises these entries.
fn add_all(
    alloc: Global,
    index: &mut Index,
    node: &Name,
    entries: &[PrefixEntry],
) -> Result<(), NoMemory>
    ensures { OnOk result (IsTold index.old.entries index.new.entries node.now (added entries.now)) }
{
    let mut left = entries;
    while let Some((entry, before)) = left.split_last() {
        add(alloc, index, node, entry)?;
        left = before;
    }
    Ok(())
}

/// The node advertises no prefix of these entries.
fn withdraw_all(
    alloc: Global,
    index: &mut Index,
    node: &Name,
    entries: &[PrefixEntry],
) -> Result<(), NoMemory>
    ensures { OnOk result (IsTold index.old.entries index.new.entries node.now (withdrawn entries.now)) }
{
    let mut left = entries;
    while let Some((entry, rest)) = left.split_first() {
        withdraw(alloc, index, node, &entry.prefix)?;
        left = rest;
    }
    Ok(())
}

/// The two are the same.
fn is_same_entry(entry: &PrefixEntry, other: &PrefixEntry) -> bool
    ensures { result ≡ is_same_entry entry.now other.now }
{
    entry.prefix.is_same_prefix(&other.prefix)
        && entry.path == other.path
        && entry.source == other.source
        && entry.distance == other.distance
}

/// The node has this entry.
fn stands(index: &Index, node: &Name, entry: &PrefixEntry) -> bool
    ensures { result ≡ stands (entry_told index.now.entries entry.now.prefix node.now) entry.now }
{
    match entry_told(index, &entry.prefix, node) {
        Some(own) => is_same_entry(own, entry),
        None => false,
    }
}

/// Adds the prefix of the entry, unless the node has that.
fn add_changed(
    prefixes: &mut BTreeSet<Prefix>,
    index: &Index,
    node: &Name,
    entry: &PrefixEntry,
) -> Result<(), NoMemory>
    ensures { OnOk result (prefixes.new.keys ≡ with_changed index.now.entries node.now prefixes.old.keys entry.now) }
{
    if !stands(index, node, entry) {
        prefixes.insert(entry.prefix)?;
    }
    Ok(())
}

/// Adds the prefixes of those entries that the node doesn't have.
fn add_all_changed(
    prefixes: &mut BTreeSet<Prefix>,
    index: &Index,
    node: &Name,
    entries: &[PrefixEntry],
) -> Result<(), NoMemory>
    ensures { OnOk result (prefixes.new.keys ≡ fold (with_changed index.now.entries node.now) prefixes.old.keys entries.now) }
{
    for entry in entries {
        add_changed(prefixes, index, node, entry)?;
    }
    Ok(())
}

/// The prefixes, in order.
fn listed(alloc: Global, prefixes: &BTreeSet<Prefix>) -> Result<Vec<Prefix>, NoMemory>
    ensures keys { IfOk result (λ list. list.items ≡ prefixes.now.keys) }
    ensures in_order { IfOk result (λ list. IsStrictlySortedBy prefix_cmp list.items) }
{
    let _len = prefixes.len();
    let mut list = Vec::new(alloc);
    for prefix in prefixes {
        list.push(*prefix)?;
    }
    Ok(list)
}

/// The node advertises the new entries in place of the old ones. Gives the prefixes for which an entry is new, or gone, or
/// another, in order.
pub fn reindex(
    alloc: Global,
    index: &mut Index,
    node: &Name,
    old: &[PrefixEntry],
    new: &[PrefixEntry],
) -> Result<Vec<Prefix>, NoMemory>
    ensures told { OnOk result (IsTold index.old.entries index.new.entries node.now (λ prefix entry. added new.now prefix (withdrawn old.now prefix entry))) }
    ensures changed { IfOk result (λ list. list.items ≡ changed_prefixes index.old.entries index.new.entries node.now old.now new.now) }
    ensures in_order { IfOk result (λ list. IsStrictlySortedBy prefix_cmp list.items) }
{
    let mut prefixes = BTreeSet::new(alloc);
    add_all_changed(&mut prefixes, index, node, new)?;
    withdraw_all(alloc, index, node, old)?;
    add_all(alloc, index, node, new)?;
    add_all_changed(&mut prefixes, index, node, old)?;
    let list = listed(alloc, &prefixes)?;
    Ok(list)
}
