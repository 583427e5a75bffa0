ghost use Rattle.std.specs.Prelude.{◌≡◌, ◌+◌, ◌*◌, ◌≤◌, ◌<◌, ◌^◌, ◌++◌, All, length, map, vec_len, IfOk, OnOk};
ghost use Rattle.std.specs.List.{flat_map, enumerate_from, list_any};
ghost use Rattle.or_actor.specs.Fits.{link_number_end};
ghost use Rattle.net_laboratory.specs.Limits.{most_nodes, most_links};
ghost use Rattle.net_record.specs.Roles.{modules_of, kind_number, is_same_module, first_place, store_number, decision_number, end_at, ends_at, node_roles, link_role, roles, most_modules, most_actors, is_module, is_link_numbered, module_number, link_number};
ghost use Rattle.net_record.specs.Small.{HasSmallNumber};
ghost use Rattle.net_record.specs.declared.role.NodeModule.TheVariants.{Decision};

use crate::role::{NodeModule, NodeSetup, Role};
use net_laboratory::{Kind, LinkDecl, NodeDecl, Scenario};
use or_actor::LinkEnd;
use or_base::{Name, NoMemory, Seq};
use std::alloc::Global;

/// The modules of a node of each kind, in the order of their numbers.
fn modules_of(alloc: Global, kind: Kind) -> Result<Vec<NodeModule>, NoMemory>
    ensures modules { IfOk result (λ modules. modules.items ≡ modules_of kind) }
    ensures few { IfOk result (λ modules. vec_len modules ≤ most_modules) }
{
    let mut modules = Vec::new(alloc);
    match kind {
        Kind::Stores => {
            modules.push(NodeModule::Store)?;
            modules.push(NodeModule::Desk)?;
        }
        Kind::Full => {
            modules.push(NodeModule::Spark)?;
            modules.push(NodeModule::LinkMonitor)?;
            modules.push(NodeModule::PrefixManager)?;
            modules.push(NodeModule::Store)?;
            modules.push(NodeModule::Decision)?;
            modules.push(NodeModule::Fib)?;
            modules.push(NodeModule::Desk)?;
        }
    }
    Ok(modules)
}

/// The number of a kind of module.
fn kind_number(module_: NodeModule) -> u32
    ensures { result ≡ kind_number module_ }
{
    match module_ {
        NodeModule::Spark => 0,
        NodeModule::LinkMonitor => 1,
        NodeModule::PrefixManager => 2,
        NodeModule::Store => 3,
        NodeModule::Decision => 4,
        NodeModule::Fib => 5,
        NodeModule::Desk => 6,
    }
}

/// Both are the same module of a node.
fn is_same_module(module_: NodeModule, other: NodeModule) -> bool
    ensures { result ≡ is_same_module module_ other }
{
    kind_number(module_) == kind_number(other)
}

/// The place of the first such module among those of a node; where there is none, how many there are.
fn first_place(searched: NodeModule, modules: &[NodeModule]) -> usize
    ensures place { result ≡ first_place (is_same_module searched) modules.now }
    ensures within { result ≤ length modules.now }
{
    for (place, module_) in modules.iter().enumerate() {
        if is_same_module(searched, *module_) {
            return place;
        }
    }
    modules.len()
}

/// The actor number of the store of a node, which is named by its place among the nodes.
fn store_number(modules: &[NodeModule], place: usize) -> u32
    requires few { length modules.now ≤ most_modules }
    requires place { place < most_nodes }
    ensures { result ≡ store_number modules.now place }
{
    let number = 1 + place * modules.len() + first_place(NodeModule::Store, modules);
    number as u32
}

/// One of these modules is a Decision.
fn has_decision(modules: &[NodeModule]) -> bool
    ensures { result ≡ list_any (is_same_module Decision) modules.now }
{
    modules
        .iter()
        .any(|module_| is_same_module(NodeModule::Decision, *module_))
}

/// That of its Decision; where nodes have none it is the driver's.
fn decision_number(modules: &[NodeModule], place: usize) -> u32
    requires few { length modules.now ≤ most_modules }
    requires place { place < most_nodes }
    ensures { result ≡ decision_number modules.now place }
{
    if !has_decision(modules) {
        return 0;
    }
    let number = 1 + place * modules.len() + first_place(NodeModule::Decision, modules);
    number as u32
}

/// Adds the end of a link, which is given with its number, at the node with this name, if it has one there.
fn add_end(
    ends: &mut Vec<LinkEnd>,
    name: &Name,
    number: u32,
    link: &LinkDecl,
) -> Result<(), NoMemory>
    requires { number < link_number_end }
    ensures added { OnOk result (ends.new.items ≡ ends.old.items ++ end_at name.now (number, link.now)) }
    ensures small { All (λ end. end.link < link_number_end) ends.old.items → OnOk result (All (λ end. end.link < link_number_end) ends.new.items) }
{
    if link.a.as_str() == name.as_str() {
        ends.push(LinkEnd {
            link: number,
            other: link.b.copied()?,
            own_if: link.aif.copied()?,
            metric: link.am,
        })?;
    } else if link.b.as_str() == name.as_str() {
        ends.push(LinkEnd {
            link: number,
            other: link.a.copied()?,
            own_if: link.bif.copied()?,
            metric: link.bm,
        })?;
    }
    Ok(())
}

/// The ends of links at the node with this name, in the order of the links' numbers.
#[tactic(auto, using(crate::proofs::Enumerated::flat_more))]
fn ends_at(alloc: Global, links: &[LinkDecl], name: &Name) -> Result<Vec<LinkEnd>, NoMemory>
    requires { length links.now ≤ most_links }
    ensures ends { IfOk result (λ ends. ends.items ≡ ends_at links.now name.now) }
    ensures small { IfOk result (λ ends. All (λ end. end.link < link_number_end) ends.items) }
{
    let mut ends = Vec::new(alloc);
    for (number, link) in links.iter().enumerate() {
        add_end(&mut ends, name, number as u32, link)?;
    }
    Ok(ends)
}

/// Copies numbers.
pub(crate) fn copied_numbers(alloc: Global, numbers: &[u64]) -> Result<Vec<u64>, NoMemory>
    ensures { IfOk result (λ copies. copies.items ≡ numbers.now) }
{
    let mut copies = Vec::new(alloc);
    for number in numbers {
        copies.push(*number)?;
    }
    Ok(copies)
}

/// Adds the modules of a node, which is given with its place among the nodes.
fn add_node(
    alloc: Global,
    all: &mut Vec<Role>,
    modules: &[NodeModule],
    links: &[LinkDecl],
    ttl: Option<u64>,
    place: usize,
    node: &NodeDecl,
) -> Result<(), NoMemory>
    requires few { length modules.now ≤ most_modules }
    requires links { length links.now ≤ most_links }
    requires place { place < most_nodes }
    ensures added { OnOk result (all.new.items ≡ all.old.items ++ node_roles modules.now links.now ttl (place, node.now)) }
    ensures len { OnOk result (vec_len all.new ≡ vec_len all.old + length modules.now) }
    ensures small { All HasSmallNumber all.old.items → OnOk result (All HasSmallNumber all.new.items) }
{
    for module_ in modules {
        let ends = ends_at(alloc, links, &node.name)?;
        let setup = NodeSetup {
            store: store_number(modules, place),
            decision: decision_number(modules, place),
            ends: Seq::from_vec(ends),
            ttl,
            faults: Seq::from_vec(copied_numbers(alloc, node.faults.as_slice())?),
        };
        all.push(Role::Node {
            module: *module_,
            node: node.name.copied()?,
            setup,
        })?;
    }
    Ok(())
}

/// Adds the modules of all nodes.
#[tactic(auto, using(crate::proofs::Enumerated::flat_more))]
fn add_nodes(
    alloc: Global,
    all: &mut Vec<Role>,
    modules: &[NodeModule],
    links: &[LinkDecl],
    ttl: Option<u64>,
    nodes: &[NodeDecl],
) -> Result<(), NoMemory>
    requires few { length modules.now ≤ most_modules }
    requires links { length links.now ≤ most_links }
    requires nodes { length nodes.now ≤ most_nodes }
    ensures added { OnOk result (all.new.items ≡ all.old.items ++ flat_map (node_roles modules.now links.now ttl) (enumerate_from 0 nodes.now)) }
    ensures len { OnOk result (vec_len all.new ≡ vec_len all.old + length nodes.now * length modules.now) }
    ensures small { All HasSmallNumber all.old.items → OnOk result (All HasSmallNumber all.new.items) }
{
    for (place, node) in nodes.iter().enumerate() {
        add_node(alloc, all, modules, links, ttl, place, node)?;
    }
    Ok(())
}

/// Adds links, which are numbered from 0.
fn add_links(all: &mut Vec<Role>, links: &[LinkDecl]) -> Result<(), NoMemory>
    requires { length links.now ≤ most_links }
    ensures added { OnOk result (all.new.items ≡ all.old.items ++ map link_role (enumerate_from 0 links.now)) }
    ensures len { OnOk result (vec_len all.new ≡ vec_len all.old + length links.now) }
    ensures small { All HasSmallNumber all.old.items → OnOk result (All HasSmallNumber all.new.items) }
{
    for (number, link) in links.iter().enumerate() {
        all.push(Role::Link {
            link: number as u32,
            a: link.a.copied()?,
            b: link.b.copied()?,
        })?;
    }
    Ok(())
}

/// What the actors of a scenario's laboratory are, in the order of their numbers.
pub fn roles(alloc: Global, scenario: &Scenario) -> Result<Vec<Role>, NoMemory>
    ensures all { IfOk result (λ all. all.items ≡ roles scenario.now) }
    ensures few { IfOk result (λ all. vec_len all ≤ most_actors) }
    ensures small { IfOk result (λ all. All HasSmallNumber all.items) }
{
    let modules = modules_of(alloc, scenario.kind)?;
    let mut all = Vec::new(alloc);
    all.push(Role::Driver)?;
    let links = scenario.links();
    add_nodes(
        alloc,
        &mut all,
        modules.as_slice(),
        links,
        scenario.ttl,
        scenario.nodes(),
    )?;
    add_links(&mut all, links)?;
    Ok(all)
}

/// The actor is this module of the node with this name.
fn is_module(module_: NodeModule, name: &Name, role: &Role) -> bool
    ensures { result ≡ is_module module_ name.now role.now }
{
    match role {
        Role::Node { module, node, .. } => {
            is_same_module(module_, *module) && node.as_str() == name.as_str()
        }
        _ => false,
    }
}

/// The actor is the link with this number.
fn is_link_numbered(number: u32, role: &Role) -> bool
    ensures { result ≡ is_link_numbered number role.now }
{
    match role {
        Role::Link { link, .. } => *link == number,
        _ => false,
    }
}

/// The actor number of a module of the node with this name.
pub fn module_number(all: &[Role], module_: NodeModule, name: &Name) -> u32
    requires { length all.now ≤ most_actors }
    ensures { result ≡ module_number all.now module_ name.now }
{
    for (number, role) in all.iter().enumerate() {
        if is_module(module_, name, role) {
            return number as u32;
        }
    }
    all.len() as u32
}

/// The actor number of a link.
pub fn link_number(all: &[Role], link: u32) -> u32
    requires { length all.now ≤ most_actors }
    ensures { result ≡ link_number all.now link }
{
    for (number, role) in all.iter().enumerate() {
        if is_link_numbered(link, role) {
            return number as u32;
        }
    }
    all.len() as u32
}
