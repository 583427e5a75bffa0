//! The nodes and the links.

ghost use Rattle.std.specs.Prelude.{◌≡◌, ◌++◌, ◌≤◌, map, IfOk, OnOk};
ghost use Rattle.std.specs.List.{flat_map};
ghost use Rattle.net_grid.specs.Grid.{node_name, interface_to, grid_node, link_between, link_right, link_down, links_from};

use crate::place::Place;
use net_laboratory::{DEFAULT_METRIC, LinkDecl, NodeDecl};
use or_base::{Name, NoMemory, Seq};
use std::alloc::Global;

/// `n<row><column>`
pub(crate) fn node_name(alloc: Global, place: Place) -> Result<Name, NoMemory>
    ensures { IfOk result (λ name. name ≡ node_name place) }
{
    let row = place.row;
    let column = place.column;
    let text = format!(in alloc; "n{row}{column}")?;
    Ok(Name::from_string(text))
}

/// `if-` and the name of the node to which it leads.
fn interface_to(alloc: Global, place: Place) -> Result<Name, NoMemory>
    ensures { IfOk result (λ name. name ≡ interface_to place) }
{
    let row = place.row;
    let column = place.column;
    let text = format!(in alloc; "if-n{row}{column}")?;
    Ok(Name::from_string(text))
}

/// The node at the place.
fn grid_node(alloc: Global, place: Place) -> Result<NodeDecl, NoMemory>
    ensures { IfOk result (λ node. node ≡ grid_node place) }
{
    let name = node_name(alloc, place)?;
    let faults = Seq::from_vec(Vec::new(alloc));
    Ok(NodeDecl { name, faults })
}

/// The nodes at the places.
pub(crate) fn nodes_of(alloc: Global, places: &[Place]) -> Result<Seq<NodeDecl>, NoMemory>
    ensures { IfOk result (λ nodes. nodes ≡ map grid_node places.now) }
{
    let mut nodes = Vec::new(alloc);
    for place in places {
        nodes.push(grid_node(alloc, *place)?)?;
    }
    Ok(Seq::from_vec(nodes))
}

/// A link between the nodes at two places, with the defaults of the language.
fn link_between(alloc: Global, a: Place, b: Place) -> Result<LinkDecl, NoMemory>
    ensures { IfOk result (λ link. link ≡ link_between a b) }
{
    Ok(LinkDecl {
        a: node_name(alloc, a)?,
        aif: interface_to(alloc, b)?,
        am: DEFAULT_METRIC,
        b: node_name(alloc, b)?,
        bif: interface_to(alloc, a)?,
        bm: DEFAULT_METRIC,
    })
}

/// Appends the link from the place to the next column, where there is one.
#[tactic(auto, unfolding(crate::specs::Grid::link_right))]
fn add_link_right(
    links: &mut Vec<LinkDecl>,
    alloc: Global,
    size: u32,
    place: Place,
) -> Result<(), NoMemory>
    requires { 1 ≤ size }
    ensures { OnOk result (links.new.items ≡ links.old.items ++ link_right size place) }
{
    if place.column < size - 1 {
        let row = place.row;
        let column = place.column + 1;
        links.push(link_between(alloc, place, Place { row, column })?)?;
    }
    Ok(())
}

/// Appends the link from the place to the next row, where there is one.
#[tactic(auto, unfolding(crate::specs::Grid::link_down))]
fn add_link_down(
    links: &mut Vec<LinkDecl>,
    alloc: Global,
    size: u32,
    place: Place,
) -> Result<(), NoMemory>
    requires { 1 ≤ size }
    ensures { OnOk result (links.new.items ≡ links.old.items ++ link_down size place) }
{
    if place.row < size - 1 {
        let row = place.row + 1;
        let column = place.column;
        links.push(link_between(alloc, place, Place { row, column })?)?;
    }
    Ok(())
}

/// The links that begin at the places: from each place the one to the right, then the one down.
pub(crate) fn links_of(
    alloc: Global,
    size: u32,
    places: &[Place],
) -> Result<Seq<LinkDecl>, NoMemory>
    requires { 1 ≤ size }
    ensures { IfOk result (λ links. links ≡ flat_map (links_from size) places.now) }
{
    let mut links = Vec::new(alloc);
    for place in places {
        add_link_right(&mut links, alloc, size, *place)?;
        add_link_down(&mut links, alloc, size, *place)?;
    }
    Ok(Seq::from_vec(links))
}
