ghost use Rattle.std.specs.Prelude.{◌≡◌, ◌&&◌, not, option_copied, IfOk};
ghost use Rattle.std.specs.List.{list_any};
ghost use Rattle.ls_graph.specs.Arcs.{are_two_ways, is_answered, carries, is_usable, arc_of};
ghost use Rattle.ls_graph.specs.Places.{adjacency_over, arc_if_usable, arc_over, arc_at};

use crate::arc::Arc;
use crate::later::Later;
use or_base::{AdjDb, Adjacency, Name, NoMemory};

/// An adjacency of the node `x` and one of the node `y` are the two ends of one link.
fn are_two_ways(x: &Name, a: &Adjacency, y: &Name, b: &Adjacency) -> bool
    ensures { result ≡ are_two_ways x.now a.now y.now b.now }
{
    a.other == *y && b.other == *x && a.other_if == b.own_if && b.other_if == a.own_if
}

/// The adjacency `b` of the other end answers the adjacency `a` of the node `x`, and takes traffic.
fn is_open_end(x: &Name, a: &Adjacency, b: &Adjacency) -> bool
    ensures { result ≡ (are_two_ways x.now a.now a.now.other b.now && not b.now.overload) }
{
    are_two_ways(x, a, &a.other, b) && !b.overload
}

/// An adjacency of the other end answers the adjacency `a` of the node `x`, and takes traffic.
fn is_answered_by(x: &Name, a: &Adjacency, adjacencies: &[Adjacency]) -> bool
    ensures { result ≡ list_any (λ b. are_two_ways x.now a.now a.now.other b && not b.overload) adjacencies.now }
{
    adjacencies.iter().any(|b| is_open_end(x, a, b))
}

/// The node at the other end reports the link too, and takes traffic over it.
fn is_answered(later: &Later, x: &Name, a: &Adjacency) -> bool
    ensures { result ≡ is_answered later.now x.now a.now }
{
    match later.database(&a.other) {
        None => false,
        Some(db) => is_answered_by(x, a, db.adjacencies.as_slice()),
    }
}

/// The node `x` carries traffic that begins at `me`.
fn carries(me: &Name, x: &Name, db: &AdjDb) -> bool
    ensures { result ≡ carries me.now x.now db.now }
{
    *x == *me || !db.overload
}

/// `me` may use the adjacency of the node `x`, whose database is `db`.
#[tactic(auto, unfolding(crate::specs::Arcs::is_usable))]
fn is_usable(me: &Name, later: &Later, x: &Name, db: &AdjDb, a: &Adjacency) -> bool
    ensures { result ≡ is_usable me.now later.now x.now db.now a.now }
{
    a.other != *x && is_answered(later, x, a) && !a.overload && carries(me, x, db)
}

/// The adjacency over an interface.
fn adjacency_over<'a>(adjacencies: &'a [Adjacency], interface: &Name) -> Option<&'a Adjacency>
    ensures { option_copied result ≡ adjacency_over adjacencies.now interface.now }
{
    adjacencies.iter().find(|a| a.own_if == *interface)
}

/// The adjacency as an arc from the node `x`.
fn arc_of(x: &Name, a: &Adjacency) -> Result<Arc, NoMemory>
    ensures { IfOk result (λ arc. arc ≡ arc_of x.now a.now) }
{
    Ok(Arc {
        from: x.copied()?,
        own_if: a.own_if.copied()?,
        to: a.other.copied()?,
        other_if: a.other_if.copied()?,
        metric: a.metric,
    })
}

/// The arc at a place that `me` may use, if there is one.
pub fn arc_at(me: &Name, later: &Later, place: &(Name, Name)) -> Result<Option<Arc>, NoMemory>
    ensures { IfOk result (λ arc. arc ≡ arc_at me.now later.now place.now) }
{
    let Some(db) = later.database(&place.0) else {
        return Ok(None);
    };
    let Some(a) = adjacency_over(db.adjacencies.as_slice(), &place.1) else {
        return Ok(None);
    };
    if is_usable(me, later, &place.0, db, a) {
        Ok(Some(arc_of(&place.0, a)?))
    } else {
        Ok(None)
    }
}
