ghost use Rattle.std.specs.Prelude.{◌≡◌, ◌++◌, [], ◌∷◌, option_copied, IfOk, OnOk};
ghost use Rattle.ls_graph.specs.Changes.{AreByPlace, is_same_link};
ghost use Rattle.ls_graph.specs.Places.{gone, arrived, replaced, changes_at, changes_among};

use crate::arc::Arc;
use crate::change::LinkChange;
use crate::later::Later;
use crate::search::arc_in;
use crate::usable::arc_at;
use or_base::{Name, NoMemory};
use std::alloc::Global;
use std::collections::BTreeSet;

/// Whether the two are one link in one direction, whatever their metrics.
fn is_same_link(a: &Arc, b: &Arc) -> bool
    ensures { result ≡ is_same_link a.now b.now }
{
    a.from == b.from && a.own_if == b.own_if && a.to == b.to && a.other_if == b.other_if
}

/// Appends that the arc is usable no more.
fn push_gone(changes: &mut Vec<LinkChange>, a: &Arc) -> Result<(), NoMemory>
    ensures { OnOk result (changes.new.items ≡ changes.old.items ++ gone a.now ∷ []) }
{
    changes.push(LinkChange {
        arc: a.copied()?,
        old: Some(a.metric),
        new: None,
    })?;
    Ok(())
}

/// Appends that the arc has become usable.
fn push_arrived(changes: &mut Vec<LinkChange>, b: Arc) -> Result<(), NoMemory>
    ensures { OnOk result (changes.new.items ≡ changes.old.items ++ arrived b ∷ []) }
{
    let metric = b.metric;
    changes.push(LinkChange {
        arc: b,
        old: None,
        new: Some(metric),
    })?;
    Ok(())
}

/// Appends what changes where the arc `b` stands in place of the arc `a`.
fn push_replaced(changes: &mut Vec<LinkChange>, a: &Arc, b: Arc) -> Result<(), NoMemory>
    ensures { OnOk result (changes.new.items ≡ changes.old.items ++ replaced a.now b) }
{
    if !is_same_link(a, &b) {
        push_gone(changes, a)?;
        push_arrived(changes, b)?;
    } else if a.metric != b.metric {
        let metric = b.metric;
        changes.push(LinkChange {
            arc: b,
            old: Some(a.metric),
            new: Some(metric),
        })?;
    }
    Ok(())
}

/// Appends what changes at one place.
fn push_changes(
    changes: &mut Vec<LinkChange>,
    old: Option<&Arc>,
    new: Option<Arc>,
) -> Result<(), NoMemory>
    ensures { OnOk result (changes.new.items ≡ changes.old.items ++ changes_at (option_copied old.entry) new) }
{
    match (old, new) {
        (None, None) => Ok(()),
        (None, Some(b)) => push_arrived(changes, b),
        (Some(a), None) => push_gone(changes, a),
        (Some(a), Some(b)) => push_replaced(changes, a, b),
    }
}

/// What changes at these places from the arcs in force to those that `me` may use by the databases.
pub fn changes_among(
    alloc: Global,
    in_force: &[Arc],
    me: &Name,
    later: &Later,
    places: &BTreeSet<(Name, Name)>,
) -> Result<Vec<LinkChange>, NoMemory>
    requires { AreByPlace in_force.now }
    ensures { IfOk result (λ changes. changes.items ≡ changes_among in_force.now me.now later.now places.now.keys) }
{
    let mut changes = Vec::new(alloc);
    for place in places {
        let new = arc_at(me, later, place)?;
        push_changes(&mut changes, arc_in(in_force, &place.0, &place.1), new)?;
    }
    Ok(changes)
}
