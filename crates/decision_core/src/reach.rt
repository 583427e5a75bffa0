ghost use Rattle.std.specs.Prelude.{◌≡◌, [], fold, map, Some, option_copied, IfOk, OnOk};
ghost use Rattle.std.specs.List.Sorted.{IsStrictlySortedBy};
ghost use Rattle.std.specs.BTreeSet.{insert_key};
ghost use Rattle.or_base.specs.Prefixes.{prefix_cmp};
ghost use Rattle.ls_records.specs.Change.{is_that};
ghost use Rattle.decision_core.specs.Reach.{is_same_reach, has_moved, with_prefixes, with_record_if, with_touched};

use ls_records::Records;
use ls_spf::{PathRow, PathTable};
use or_base::{Name, NoMemory, Prefix, PrefixDb, PrefixEntry};
use std::alloc::Global;
use std::collections::{BTreeMap, BTreeSet};

/// Least walks cost the same and begin by the same interfaces, or there is none.
fn is_same_reach(before: Option<&PathRow>, after: Option<&PathRow>) -> bool
    ensures { result ≡ is_same_reach (option_copied before.entry) (option_copied after.entry) }
{
    match (before, after) {
        (None, None) => true,
        (Some(r), Some(s)) => r.cost == s.cost && r.hops.as_slice() == s.hops.as_slice(),
        _otherwise => false,
    }
}

/// The node is reached otherwise than before.
fn has_moved(before: &PathTable, after: &PathTable, node: &Name) -> bool
    ensures { result ≡ has_moved before.now.rows after.now.rows node.now }
{
    !is_same_reach(before.row(node), after.row(node))
}

/// Adds prefixes to a set of them.
fn add_prefixes(places: &mut BTreeSet<Prefix>, prefixes: &[Prefix]) -> Result<(), NoMemory>
    ensures { OnOk result (places.new.keys ≡ with_prefixes places.old.keys prefixes.now) }
{
    for prefix in prefixes {
        places.insert(*prefix)?;
    }
    Ok(())
}

/// Adds the prefixes of these entries.
fn add_entries(places: &mut BTreeSet<Prefix>, entries: &[PrefixEntry]) -> Result<(), NoMemory>
    ensures { OnOk result (places.new.keys ≡ with_prefixes places.old.keys (map (λ e. e.prefix) entries.now)) }
{
    for entry in entries {
        places.insert(entry.prefix)?;
    }
    Ok(())
}

/// Adds the prefixes that the node of this name advertises.
fn add_named(
    places: &mut BTreeSet<Prefix>,
    records: &BTreeMap<Name, PrefixDb>,
    name: &Name,
) -> Result<(), NoMemory>
    ensures { OnOk result (places.new.keys ≡ with_touched (is_that (Some name.now)) places.old.keys records.now.entries) }
{
    for (node, db) in records {
        if name == node {
            add_entries(places, db.entries.as_slice())?;
        }
    }
    Ok(())
}

/// Adds the prefixes that nodes advertise which are reached otherwise than before.
pub fn add_moved(
    places: &mut BTreeSet<Prefix>,
    records: &BTreeMap<Name, PrefixDb>,
    before: &PathTable,
    after: &PathTable,
) -> Result<(), NoMemory>
    ensures { OnOk result (places.new.keys ≡ with_touched (has_moved before.now.rows after.now.rows) places.old.keys records.now.entries) }
{
    for (node, db) in records {
        if has_moved(before, after, node) {
            add_entries(places, db.entries.as_slice())?;
        }
    }
    Ok(())
}

/// The prefixes of a change, with those that this node advertises, if there is one.
#[tactic(auto, using(crate::proofs::Touched::none_named))]
pub fn changed_places(
    alloc: Global,
    records: &BTreeMap<Name, PrefixDb>,
    prefixes: &[Prefix],
    transit: Option<&Name>,
) -> Result<BTreeSet<Prefix>, NoMemory>
    ensures { IfOk result (λ places. places.keys ≡ with_touched (is_that (option_copied transit.entry)) (with_prefixes [] prefixes.now) records.now.entries) }
{
    let mut places = BTreeSet::new(alloc);
    add_prefixes(&mut places, prefixes)?;
    if let Some(node) = transit {
        add_named(&mut places, records, node)?;
    }
    Ok(places)
}

/// The prefixes of a set, in order.
pub fn listed(alloc: Global, places: &BTreeSet<Prefix>) -> Result<Vec<Prefix>, NoMemory>
    ensures keys { IfOk result (λ list. list.items ≡ places.now.keys) }
    ensures in_order { IfOk result (λ list. IsStrictlySortedBy prefix_cmp list.items) }
{
    let _len = places.len();
    let mut list = Vec::new(alloc);
    for prefix in places {
        list.push(*prefix)?;
    }
    Ok(list)
}
