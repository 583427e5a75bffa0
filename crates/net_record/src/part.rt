ghost use Rattle.std.specs.Prelude.{◌≡◌, ◌<◌, All, ◌-◌, ◌^◌, ◌++◌, length, option_map, slice_index_or, IsTrue, IfOk, OnOk};
ghost use Rattle.or_actor.specs.Fits.{link_number_end};
ghost use Rattle.spark_node.specs.Spark.{new_spark};
ghost use Rattle.link_monitor.specs.LinkMonitor.{new_link_monitor};
ghost use Rattle.prefix_manager.specs.PrefixManager.{new_prefix_manager};
ghost use Rattle.fib_core.specs.Fib.{new_fib};
ghost use Rattle.net_record.specs.declared.kinds.AnyModule.TheVariants.{Spark, LinkMonitor, PrefixManager, Fib};
ghost use Rattle.net_record.specs.Actors.{node_part};

use crate::desk::Desk;
use crate::kinds::AnyModule;
use crate::numbering::copied_numbers;
use crate::role::{NodeModule, NodeSetup, Role};
use decision_core::DecisionModule;
use fib_core::FibModule;
use kv_store::KvModule;
use link_monitor::LinkMonitorModule;
use net_link::LinkModule;
use or_actor::{LinkEnd, Module, Outbox, has_small_link};
use or_base::{Item, JournalEntry, Kind, Name, NoMemory};
use prefix_manager::PrefixManagerModule;
use spark_node::SparkModule;
use std::alloc::Global;

/// What an actor is.
#[derive(Drop)]
pub enum Part {
    /// The driver, which takes no items.
    Driver,
    /// A node's desk.
    Desk(Desk),
    /// A module.
    Module(AnyModule),
}

/// Copies the ends of links.
fn copied_ends(alloc: Global, ends: &[LinkEnd]) -> Result<Vec<LinkEnd>, NoMemory>
    ensures { IfOk result (λ copies. copies.items ≡ ends.now) }
{
    let mut copies = Vec::new(alloc);
    for end in ends {
        copies.push(end.clone()?)?;
    }
    Ok(copies)
}

/// The Spark of a node as it starts.
fn new_spark(alloc: Global, node: Name, setup: &NodeSetup) -> Result<AnyModule, NoMemory>
    requires { All (λ end. end.link < link_number_end) setup.now.ends }
    ensures { IfOk result (λ m. m ≡ Spark (new_spark node setup.now.ends)) }
{
    let ends = copied_ends(alloc, setup.ends.as_slice())?;
    Ok(AnyModule::Spark(SparkModule::new(alloc, node, ends)?))
}

/// The LinkMonitor of a node as it starts.
fn new_link_monitor(alloc: Global, node: Name, setup: &NodeSetup) -> Result<AnyModule, NoMemory>
    ensures { IfOk result (λ m. m ≡ LinkMonitor (new_link_monitor node setup.now.ends setup.now.ttl)) }
{
    let ends = copied_ends(alloc, setup.ends.as_slice())?;
    let monitor = LinkMonitorModule::new(alloc, node, ends, setup.ttl)?;
    Ok(AnyModule::LinkMonitor(monitor))
}

/// The PrefixManager of a node as it starts.
fn new_prefix_manager(alloc: Global, node: Name, setup: &NodeSetup) -> Result<AnyModule, NoMemory>
    ensures { IfOk result (λ m. m ≡ PrefixManager (new_prefix_manager node setup.now.ttl)) }
{
    let manager = PrefixManagerModule::new(alloc, node, setup.ttl)?;
    Ok(AnyModule::PrefixManager(manager))
}

/// The Fib of a node as it starts.
fn new_fib(alloc: Global, node: Name, setup: &NodeSetup) -> Result<AnyModule, NoMemory>
    ensures { IfOk result (λ m. m ≡ Fib (new_fib node setup.now.faults)) }
{
    let failing = copied_numbers(alloc, setup.faults.as_slice())?;
    Ok(AnyModule::Fib(FibModule::new(node, failing)))
}

/// A module of a node as it starts, in a laboratory of this kind.
fn node_part(
    alloc: Global,
    kind: Kind,
    module_: NodeModule,
    node: Name,
    setup: &NodeSetup,
) -> Result<Part, NoMemory>
    requires { All (λ end. end.link < link_number_end) setup.now.ends }
    ensures { IfOk result (λ part. part ≡ node_part kind module_ node setup.now) }
{
    let part = match module_ {
        NodeModule::Spark => Part::Module(new_spark(alloc, node, setup)?),
        NodeModule::LinkMonitor => Part::Module(new_link_monitor(alloc, node, setup)?),
        NodeModule::PrefixManager => Part::Module(new_prefix_manager(alloc, node, setup)?),
        NodeModule::Store => Part::Module(AnyModule::Store(KvModule::new(alloc, kind, node)?)),
        NodeModule::Decision => {
            Part::Module(AnyModule::Decision(DecisionModule::new(alloc, node)?))
        }
        NodeModule::Fib => Part::Module(new_fib(alloc, node, setup)?),
        NodeModule::Desk => Part::Desk(Desk::new(alloc, node, setup.store, setup.decision)),
    };
    Ok(part)
}

impl Part {
    ghost use Rattle.std.specs.Option.{option_map_or};
    ghost use Rattle.net_record.specs.Actors.{new_part, store_of, decision_of, fib_of, desk_of, entries_of, finished_by, part_step, part_shown, part_after_settle, part_without_question};
    ghost use Rattle.or_actor.specs.Fits.{has_small_link, have_small_links};
    ghost use Rattle.net_record.specs.Small.{HasSmallNumber};

    /// What an actor is as it starts, in a laboratory of this kind.
    pub(crate) fn new(alloc: Global, kind: Kind, role: &Role) -> Result<Part, NoMemory>
        requires { HasSmallNumber role.now }
        ensures { IfOk result (λ part. part ≡ new_part kind role.now) }
    {
        match role {
            Role::Driver => Ok(Part::Driver),
            Role::Node {
                module,
                node,
                setup,
            } => node_part(alloc, kind, *module, node.copied()?, setup),
            Role::Link { link, a, b } => {
                let link = LinkModule::new(alloc, kind, *link, a.copied()?, b.copied()?);
                Ok(Part::Module(AnyModule::Link(link)))
            }
        }
    }

    /// The store that it is, if it is one. It takes no memory.
    pub fn store(&self) -> Option<&KvModule>
        ensures { option_map (λ s. s.now) result ≡ store_of self.now }
    {
        match self {
            Part::Module(module_) => module_.store(),
            _other => None,
        }
    }

    /// The Decision that it is, if it is one. It takes no memory.
    pub fn decision(&self) -> Option<&DecisionModule>
        ensures { option_map (λ s. s.now) result ≡ decision_of self.now }
    {
        match self {
            Part::Module(module_) => module_.decision(),
            _other => None,
        }
    }

    /// The Fib that it is, if it is one. It takes no memory.
    pub fn fib(&self) -> Option<&FibModule>
        ensures { option_map (λ s. s.now) result ≡ fib_of self.now }
    {
        match self {
            Part::Module(module_) => module_.fib(),
            _other => None,
        }
    }

    /// The journal of the store that it is, if it is one. It takes no memory.
    pub(crate) fn into_journal(self) -> Option<Vec<JournalEntry>>
        ensures { option_map (λ journal. journal.items) result ≡ option_map (λ s. s.journal) (store_of self) }
    {
        match self {
            Part::Module(module_) => module_.into_journal(),
            _other => None,
        }
    }

    /// The desk that it is, if it is one. It takes no memory.
    pub(crate) fn desk(&self) -> Option<&Desk>
        ensures { option_map (λ d. d.now) result ≡ desk_of self.now }
    {
        match self {
            Part::Desk(desk) => Some(desk),
            _other => None,
        }
    }

    /// The entries of its journal, where it is a store, or those that it took, where it is a Decision; else none. It takes no
    /// memory.
    pub fn entries(&self) -> &[JournalEntry]
        ensures entries { result.now ≡ entries_of self.now }
        ensures small { length result.now < 2 ^ 63 }
    {
        match self {
            Part::Module(module_) => module_.entries(),
            _other => &[],
        }
    }

    /// How many full syncs that it started were finished, where it is a store. It takes no memory.
    pub fn finished_syncs(&self) -> u64
        ensures { result ≡ finished_by self.now }
    {
        match self.store() {
            Some(store) => store.done().len() as u64,
            None => 0,
        }
    }

    /// So many entries are shown to it, before it takes the item, so that a question to a desk finds them. It takes no
    /// memory.
    pub(crate) fn show(&mut self, item: &Item, at: u64)
        requires { at < 2 ^ 64 - 1 }
        ensures { self.new ≡ part_shown self.old item.now at }
    {
        match self {
            Part::Desk(desk) => desk.show(item, at),
            _other => {}
        }
    }

    /// One turn, in which a desk finds `at` entries.
    #[tactic(auto, using(crate::proofs::Parts::state_shown, crate::proofs::Parts::sent_shown))]
    pub(crate) fn take(
        &mut self,
        lane: u32,
        item: Item,
        at: u64,
        out: &mut Outbox,
    ) -> Result<(), NoMemory>
        requires item { IsTrue (has_small_link item) }
        requires at { at < 2 ^ 64 - 1 }
        ensures state { OnOk result (self.new ≡ (part_step self.old lane item at).0) }
        ensures sent { OnOk result (out.new ≡ out.old ++ (part_step self.old lane item at).1) }
        ensures small { OnOk result (IsTrue (have_small_links (part_step self.old lane item at).1)) }
    {
        self.show(&item, at);
        let _found = self.turn(lane, item, out)?;
        Ok(())
    }

    /// A settle, at which actors have so many entries, by their numbers. It takes no memory.
    pub(crate) fn settle(&mut self, counts: &[u64])
        requires { (n : _) → slice_index_or counts.now n 0 < 2 ^ 64 - 1 }
        ensures { self.new ≡ part_after_settle counts.now self.old }
    {
        match self {
            Part::Desk(desk) => desk.settle(counts),
            _other => {}
        }
    }

    /// Forgets its oldest question, where it is a desk that has one. It takes no memory.
    pub(crate) fn forget(&mut self)
        ensures { self.new ≡ part_without_question self.old }
    {
        match self {
            Part::Desk(desk) => desk.forget(),
            _other => {}
        }
    }
}

impl Module for Part {
    ghost use Rattle.or_actor.specs.Fits.{has_small_link, have_small_links};
    ghost use Rattle.or_actor.specs.Steps.{turned};
    ghost use Rattle.net_record.specs.declared.part.Part.{Part};
    ghost use Rattle.net_record.specs.Actors.{part_step, part_may_find, part_finds};

    ghost State = { Part };

    ghost state = { λ part. part };

    ghost may_take = { λ part item. has_small_link item };

    ghost may_find = { part_may_find };

    ghost step = { part_step };

    fn fits(&self, item: &Item) -> bool {
        match self {
            Part::Module(module_) => module_.fits(item),
            _other => has_small_link(item),
        }
    }

    /// A desk finds as many entries as were shown to it last.
    #[tactic(auto, unfolding(crate::specs::Actors::part_step), using(crate::proofs::Parts::desk_turned))]
    fn turn(&mut self, lane: u32, item: Item, out: &mut Outbox) -> Result<u64, NoMemory>
        requires { IsTrue (has_small_link item) }
        ensures found { IfOk result (λ at. IsTrue (part_may_find self.old item at)) }
        ensures state { IfOk result (λ at. self.new ≡ (turned at self.old (part_step self.old lane item at)).0) }
        ensures sent { IfOk result (λ at. out.new ≡ out.old ++ (turned at self.old (part_step self.old lane item at)).1) }
        ensures small { IfOk result (λ at. IsTrue (have_small_links (turned at self.old (part_step self.old lane item at)).1)) }
        ensures shown { IfOk result (λ at. at ≡ part_finds self.old item) }
    {
        match self {
            Part::Driver => {
                let _item = item;
                Ok(0)
            }
            Part::Desk(desk) => desk.take(item),
            Part::Module(module_) => module_.turn(lane, item, out),
        }
    }
}
