//! The one room for the kinds of modules.

ghost use Rattle.std.specs.Prelude.{◌≡◌, ◌<◌, ◌^◌, length, option_map};
ghost use Rattle.net_record.specs.Kinds.{store_in, decision_in, fib_in, entries_in};

use decision_core::DecisionModule;
use fib_core::FibModule;
use kv_store::KvModule;
use link_monitor::LinkMonitorModule;
use net_link::LinkModule;
use or_actor::{Module, Outbox};
use or_base::{Item, JournalEntry, NoMemory};
use prefix_manager::PrefixManagerModule;
use spark_node::SparkModule;

/// A module of any kind that implements `Module`.
#[derive(Drop)]
pub enum AnyModule {
    /// A node's Spark.
    Spark(SparkModule),
    /// A node's LinkMonitor.
    LinkMonitor(LinkMonitorModule),
    /// A node's PrefixManager.
    PrefixManager(PrefixManagerModule),
    /// A node's store.
    Store(KvModule),
    /// A node's Decision.
    Decision(DecisionModule),
    /// A node's Fib.
    Fib(FibModule),
    /// A link.
    Link(LinkModule),
}

impl AnyModule {
    /// The store that it is, if it is one. It takes no memory.
    pub fn store(&self) -> Option<&KvModule>
        ensures { option_map (λ s. s.now) result ≡ store_in self.now }
    {
        match self {
            AnyModule::Store(store) => Some(store),
            _other => None,
        }
    }

    /// The Decision that it is, if it is one. It takes no memory.
    pub fn decision(&self) -> Option<&DecisionModule>
        ensures { option_map (λ s. s.now) result ≡ decision_in self.now }
    {
        match self {
            AnyModule::Decision(decision) => Some(decision),
            _other => None,
        }
    }

    /// The Fib that it is, if it is one. It takes no memory.
    pub fn fib(&self) -> Option<&FibModule>
        ensures { option_map (λ s. s.now) result ≡ fib_in self.now }
    {
        match self {
            AnyModule::Fib(fib) => Some(fib),
            _other => None,
        }
    }

    /// The entries that it has: the journal of a store, and of a Decision what it took of one. It takes no memory.
    pub(crate) fn entries(&self) -> &[JournalEntry]
        ensures entries { result.now ≡ entries_in self.now }
        ensures small { length result.now < 2 ^ 63 }
    {
        match self {
            AnyModule::Store(store) => store.table().journal(),
            AnyModule::Decision(decision) => decision.entries(),
            _other => &[],
        }
    }

    /// The journal of the store that it is, if it is one. It takes no memory.
    pub(crate) fn into_journal(self) -> Option<Vec<JournalEntry>>
        ensures { option_map (λ journal. journal.items) result ≡ option_map (λ s. s.journal) (store_in self) }
    {
        match self {
            AnyModule::Store(store) => Some(store.into_journal()),
            _other => None,
        }
    }
}

impl Module for AnyModule {
    ghost use Rattle.or_actor.specs.Fits.{has_small_link};
    ghost use Rattle.net_record.specs.declared.kinds.AnyModule.{AnyModule};
    ghost use Rattle.net_record.specs.Kinds.{module_step, module_may_find};

    ghost State = { AnyModule };

    ghost state = { λ m. m };

    ghost may_take = { λ s item. has_small_link item };

    ghost may_find = { module_may_find };

    ghost step = { λ m lane item at. module_step m lane item };

    fn fits(&self, item: &Item) -> bool {
        match self {
            AnyModule::Spark(spark) => spark.fits(item),
            AnyModule::LinkMonitor(monitor) => monitor.fits(item),
            AnyModule::PrefixManager(manager) => manager.fits(item),
            AnyModule::Store(store) => store.fits(item),
            AnyModule::Decision(decision) => decision.fits(item),
            AnyModule::Fib(fib) => fib.fits(item),
            AnyModule::Link(link) => link.fits(item),
        }
    }

    #[tactic(auto, unfolding(crate::specs::Kinds::module_step))]
    fn turn(&mut self, lane: u32, item: Item, out: &mut Outbox) -> Result<u64, NoMemory> {
        match self {
            AnyModule::Spark(spark) => spark.turn(lane, item, out),
            AnyModule::LinkMonitor(monitor) => monitor.turn(lane, item, out),
            AnyModule::PrefixManager(manager) => manager.turn(lane, item, out),
            AnyModule::Store(store) => store.turn(lane, item, out),
            AnyModule::Decision(decision) => decision.turn(lane, item, out),
            AnyModule::Fib(fib) => fib.turn(lane, item, out),
            AnyModule::Link(link) => link.turn(lane, item, out),
        }
    }
}
