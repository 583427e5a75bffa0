ghost use Rattle.std.specs.Prelude.{◌≡◌, option_copied, OnOk, OnErr};
ghost use Rattle.ls_graph.specs.Changes.{AreByPlace, with_arc_in_place, without_place};
ghost use Rattle.ls_graph.specs.Places.{pair_cmp, place_of, arc_in, IsFoundAt};

use crate::arc::Arc;
use or_base::{Name, NoMemory};
use std::cmp::Ordering;

/// How the place of an arc compares with the place of a node's interface.
fn compare_place(arc: &Arc, from: &Name, own_if: &Name) -> Ordering
    ensures { result ≡ pair_cmp (place_of arc.now) (from.now, own_if.now) }
{
    arc.from.cmp(from).then(arc.own_if.cmp(own_if))
}

/// The index of the arc at a place, or else the index at which one would stand, among arcs by place.
fn search(arcs: &[Arc], from: &Name, own_if: &Name) -> Result<usize, usize>
    requires { AreByPlace arcs.now }
    ensures { IsFoundAt arcs.now (from.now, own_if.now) result }
{
    arcs.binary_search_by(|arc| compare_place(arc, from, own_if))
}

/// The arc at a place, if there is one, among arcs by place.
pub fn arc_in<'a>(arcs: &'a [Arc], from: &Name, own_if: &Name) -> Option<&'a Arc>
    requires { AreByPlace arcs.now }
    ensures { option_copied result ≡ arc_in arcs.now (from.now, own_if.now) }
{
    match search(arcs, from, own_if) {
        Ok(index) => Some(&arcs[index]),
        Err(_) => None,
    }
}

/// Puts an arc in its place, in place of what stood there. Where memory runs out nothing changes.
pub fn put_arc(arcs: &mut Vec<Arc>, arc: Arc) -> Result<(), NoMemory>
    requires { AreByPlace arcs.old.items }
    ensures ok { OnOk result (arcs.new.items ≡ with_arc_in_place arcs.old.items arc) }
    ensures err { OnErr result (arcs.new.items ≡ arcs.old.items) }
{
    match search(arcs, &arc.from, &arc.own_if) {
        Ok(index) => arcs[index] = arc,
        Err(index) => arcs.insert(index, arc)?,
    }
    Ok(())
}

/// Takes out what stands in the place of an arc.
pub fn take_arc(arcs: &mut Vec<Arc>, arc: &Arc)
    requires { AreByPlace arcs.old.items }
    ensures { arcs.new.items ≡ without_place arcs.old.items arc.now }
{
    if let Ok(index) = search(arcs, &arc.from, &arc.own_if) {
        let _gone = arcs.remove(index);
    }
}
