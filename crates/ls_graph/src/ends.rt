ghost use Rattle.std.specs.Prelude.{◌≡◌, option_copied, IfOk, OnOk};
ghost use Rattle.std.specs.List.{flat_map};
ghost use Rattle.ls_graph.specs.Places.{ends_of, ends_in, AreJoined, CoverEnds};

use or_base::{AdjDb, Adjacency, Name, NoMemory};
use std::alloc::Global;
use std::collections::BTreeSet;

/// Adds the two ends of a link as the node `x` reports it.
fn add_ends(places: &mut BTreeSet<(Name, Name)>, x: &Name, a: &Adjacency) -> Result<(), NoMemory>
    ensures { OnOk result (AreJoined places.old.keys (ends_of x.now a.now) places.new.keys) }
{
    let near = (x.copied()?, a.own_if.copied()?);
    let _is_new = places.insert(near)?;
    let far = (a.other.copied()?, a.other_if.copied()?);
    let _is_new = places.insert(far)?;
    Ok(())
}

/// Adds the ends of all links that the node `x` reports by these adjacencies.
fn add_all_ends(
    places: &mut BTreeSet<(Name, Name)>,
    x: &Name,
    adjacencies: &[Adjacency],
) -> Result<(), NoMemory>
    ensures { OnOk result (AreJoined places.old.keys (flat_map (ends_of x.now) adjacencies.now) places.new.keys) }
{
    for a in adjacencies {
        add_ends(places, x, a)?;
    }
    Ok(())
}

/// Adds the ends of all links that the node `x` reports in the database, if there is one.
fn add_ends_in(
    places: &mut BTreeSet<(Name, Name)>,
    x: &Name,
    db: Option<&AdjDb>,
) -> Result<(), NoMemory>
    ensures { OnOk result (AreJoined places.old.keys (ends_in x.now (option_copied db.entry)) places.new.keys) }
{
    match db {
        None => Ok(()),
        Some(db) => add_all_ends(places, x, db.adjacencies.as_slice()),
    }
}

/// The places at which arcs can change where the node's database `old` gives way to `new`: the ends of the links that either
/// reports.
pub fn changed_ends(
    alloc: Global,
    node: &Name,
    old: Option<&AdjDb>,
    new: Option<&AdjDb>,
) -> Result<BTreeSet<(Name, Name)>, NoMemory>
    ensures { IfOk result (λ places. CoverEnds node.now (option_copied old.entry) (option_copied new.entry) places.keys) }
{
    let mut places = BTreeSet::new(alloc);
    add_ends_in(&mut places, node, old)?;
    add_ends_in(&mut places, node, new)?;
    let _count = places.len();
    Ok(places)
}
