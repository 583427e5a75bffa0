ghost use Rattle.std.specs.Prelude.{◌≡◌, ◌+◌, ◌*◌, ◌≤◌, ◌<◌, ◌^◌, ◌++◌, ℕ, All, length, vec_len, IfOk, OnOk};
ghost use Rattle.net_record.specs.Roles.{most_actors};
ghost use Rattle.net_record.specs.Wires.{is_driven, meets_links, port_of_module, has_items_within, is_link_end, has_items_for, port_from_node, port_from_link, port_of, wire_between, wires_to, wires};
ghost use Rattle.net_record.specs.Small.{HasSmallNumber};
ghost use Rattle.net_record.specs.Wired.{JoinsBelow};

use crate::role::{NodeModule, Role};
use crate::wire::Wire;
use or_actor::{
    DECISION_PORT, DESK_PORT, END_B_PORTS, FIB_PORT, FIRST_LINK_PORT, LINK_MONITOR_PORT,
    PREFIX_MANAGER_PORT, SPARK_PORT, STORE_PORT,
};
use or_base::{Name, NoMemory};
use std::alloc::Global;

/// The driver has items for the module.
fn is_driven(module_: NodeModule) -> bool
    ensures { result ≡ is_driven module_ }
{
    match module_ {
        NodeModule::Spark
        | NodeModule::LinkMonitor
        | NodeModule::PrefixManager
        | NodeModule::Store
        | NodeModule::Fib
        | NodeModule::Desk => true,
        NodeModule::Decision => false,
    }
}

/// Messages go to and from the links of the module's node.
fn meets_links(module_: NodeModule) -> bool
    ensures { result ≡ meets_links module_ }
{
    match module_ {
        NodeModule::Spark | NodeModule::Store => true,
        NodeModule::LinkMonitor
        | NodeModule::PrefixManager
        | NodeModule::Decision
        | NodeModule::Fib
        | NodeModule::Desk => false,
    }
}

/// The port by which the other modules of its node name the module, and the links that have that node as their end a.
fn port_of_module(module_: NodeModule) -> u32
    ensures port { result ≡ port_of_module module_ }
    ensures small { result < 8 }
{
    match module_ {
        NodeModule::Spark => SPARK_PORT,
        NodeModule::LinkMonitor => LINK_MONITOR_PORT,
        NodeModule::PrefixManager => PREFIX_MANAGER_PORT,
        NodeModule::Store => STORE_PORT,
        NodeModule::Decision => DECISION_PORT,
        NodeModule::Fib => FIB_PORT,
        NodeModule::Desk => DESK_PORT,
    }
}

/// Within a node, the first module has items for the second.
fn has_items_within(from: NodeModule, to: NodeModule) -> bool
    ensures { result ≡ has_items_within from to }
{
    matches!(
        (from, to),
        (NodeModule::Spark, NodeModule::LinkMonitor)
            | (NodeModule::LinkMonitor, NodeModule::Store)
            | (NodeModule::PrefixManager, NodeModule::Store)
            | (NodeModule::Store, NodeModule::Decision)
            | (NodeModule::Decision, NodeModule::PrefixManager)
            | (NodeModule::Decision, NodeModule::Fib)
    )
}

/// The node is an end of a link between a and b.
fn is_link_end(node: &Name, a: &Name, b: &Name) -> bool
    ensures { result ≡ is_link_end node.now a.now b.now }
{
    node.as_str() == a.as_str() || node.as_str() == b.as_str()
}

/// An actor of the first role has items for one of the second.
fn has_items_for(from: &Role, to: &Role) -> bool
    ensures { result ≡ has_items_for from.now to.now }
{
    match (from, to) {
        (Role::Driver, Role::Node { module, .. }) => is_driven(*module),
        (Role::Driver, Role::Link { .. }) => true,
        (
            Role::Node { module, node, .. },
            Role::Node {
                module: other,
                node: name,
                ..
            },
        ) => node.as_str() == name.as_str() && has_items_within(*module, *other),
        (Role::Node { module, node, .. }, Role::Link { a, b, .. }) => {
            meets_links(*module) && is_link_end(node, a, b)
        }
        (Role::Link { a, b, .. }, Role::Node { module, node, .. }) => {
            meets_links(*module) && is_link_end(node, a, b)
        }
        _ => false,
    }
}

/// The port of a module of a node.
fn port_from_node(to: &Role) -> u32
    requires { HasSmallNumber to.now }
    ensures { result ≡ port_from_node to.now }
{
    match to {
        Role::Driver => 0,
        Role::Node { module, .. } => port_of_module(*module),
        Role::Link { link, .. } => FIRST_LINK_PORT + *link,
    }
}

/// The port of a link, whose end a is given.
fn port_from_link(a: &Name, to: &Role) -> u32
    ensures { result ≡ port_from_link a.now to.now }
{
    match to {
        Role::Node { module, node, .. } => {
            if node.as_str() == a.as_str() {
                port_of_module(*module)
            } else {
                END_B_PORTS + port_of_module(*module)
            }
        }
        _ => 0,
    }
}

/// The port by which an actor of the first role names its lane to one of the second.
fn port_of(from: &Role, to: &Role, reader: u32) -> u32
    requires { HasSmallNumber to.now }
    ensures { result ≡ port_of from.now to.now reader }
{
    match from {
        Role::Driver => reader,
        Role::Node { .. } => port_from_node(to),
        Role::Link { a, .. } => port_from_link(a, to),
    }
}

/// Adds the lane from one actor to another, if there is one.
fn add_wire(
    lanes: &mut Vec<Wire>,
    writer: u32,
    from: &Role,
    reader: u32,
    to: &Role,
) -> Result<(), NoMemory>
    requires { HasSmallNumber to.now }
    ensures added { OnOk result (lanes.new.items ≡ lanes.old.items ++ wire_between (reader, to.now) (writer, from.now)) }
    ensures len { OnOk result (vec_len lanes.new ≤ vec_len lanes.old + 1) }
{
    if has_items_for(from, to) {
        let port = port_of(from, to, reader);
        lanes.push(Wire {
            writer,
            port,
            reader,
        })?;
    }
    Ok(())
}

/// Adds the lanes to one reader, in the order of their writers.
#[tactic(auto, using(crate::proofs::Enumerated::flat_more))]
fn add_wires_to(lanes: &mut Vec<Wire>, all: &[Role], reader: u32, to: &Role) -> Result<(), NoMemory>
    requires few { length all.now ≤ most_actors }
    requires small { HasSmallNumber to.now }
    ensures added { OnOk result (lanes.new.items ≡ lanes.old.items ++ wires_to all.now (reader, to.now)) }
    ensures len { OnOk result (vec_len lanes.new ≤ vec_len lanes.old + most_actors) }
{
    for (writer, from) in all.iter().enumerate() {
        add_wire(lanes, writer as u32, from, reader, to)?;
    }
    Ok(())
}

/// Adds the lanes to every actor, in the order of their readers.
#[tactic(auto, using(crate::proofs::Enumerated::flat_more))]
fn lanes_among(alloc: Global, all: &[Role]) -> Result<Vec<Wire>, NoMemory>
    requires few { length all.now ≤ most_actors }
    requires small { All HasSmallNumber all.now }
    ensures lanes { IfOk result (λ lanes. lanes.items ≡ wires all.now) }
    ensures few { IfOk result (λ lanes. vec_len lanes < 2 ^ 32) }
{
    let mut lanes = Vec::new(alloc);
    for (reader, to) in all.iter().enumerate() {
        add_wires_to(&mut lanes, all, reader as u32, to)?;
    }
    Ok(lanes)
}

/// The lanes among actors that are given in the order of their numbers.
#[tactic(auto, using(crate::proofs::Wired::ends_of_lanes))]
pub fn wires(alloc: Global, all: &[Role]) -> Result<Vec<Wire>, NoMemory>
    requires few { length all.now ≤ most_actors }
    requires small { All HasSmallNumber all.now }
    ensures lanes { IfOk result (λ lanes. lanes.items ≡ wires all.now) }
    ensures few { IfOk result (λ lanes. vec_len lanes < 2 ^ 32) }
    ensures ends { IfOk result (λ lanes. All (JoinsBelow (length all.now)) lanes.items) }
{
    let lanes = lanes_among(alloc, all)?;
    Ok(lanes)
}
