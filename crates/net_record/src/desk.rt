ghost use Rattle.std.specs.Prelude.{◌≡◌, ◌<◌, ◌-◌, ◌^◌, Some, option_map, slice_get, slice_index_or, IsTrue, IfOk, OnOk};

use or_base::{Asked, Item, Name, NoMemory};
use std::alloc::Global;
use std::collections::VecDeque;
use std::marker::Model;

/// How a desk looks at an actor that has entries: the actor's number, and how many entries the desk found last.
#[derive(Clone, Copy, Debug, PartialEq, Eq)]
pub struct View {
    pub owner: u32,
    pub last: u64,
}

/// A question that no settle has answered: what was asked, the number of entries that its turn found, and the greatest
/// number that the desk had seen before.
#[derive(Drop)]
pub struct Question {
    pub asked: Asked,
    pub at: u64,
    pub seen: u64,
}

/// A node's desk, which is asked what the node's store holds and where its Decision routes prefixes.
#[derive(Drop)]
pub struct Desk {
    node: Name,
    seen: u64,
    store: View,
    decision: View,
    questions: VecDeque<Question>,
}

impl Model for Desk {
    ghost use Rattle.std.specs.Prelude.{◌<◌, ◌-◌, ◌^◌};
    ghost use Rattle.net_record.specs.Desk.{DeskState};

    ghost Value = { DeskState };

    ghost view = { λ d. record { node = d.node; seen = d.seen; store = d.store; decision = d.decision; questions = d.questions.items } };

    ghost invariant = { λ d. (d.store.last < 2 ^ 64 - 1) × (d.decision.last < 2 ^ 64 - 1) };
}

impl View {
    ghost use Rattle.net_record.specs.Desk.{new_view, with_last, whole_view};

    /// A view of an actor in which nothing was found yet.
    fn new(owner: u32) -> View
        ensures { result ≡ new_view owner }
    {
        View { owner, last: 0 }
    }

    /// The same view, in which so many entries were found.
    fn with_last(self, at: u64) -> View
        ensures { result ≡ with_last self at }
    {
        View {
            owner: self.owner,
            last: at,
        }
    }

    /// The same view of actors that have so many entries, by their numbers, in which all was found.
    fn whole(self, counts: &[u64]) -> View
        ensures { result ≡ whole_view counts.now self }
    {
        match counts.get(self.owner as usize) {
            Some(count) => self.with_last(*count),
            None => self.with_last(0),
        }
    }
}

impl Desk {
    ghost use Rattle.net_record.specs.Desk.{new_desk, view_for, with_found, with_open, with_question, desk_after, desk_finds, desk_may_find, desk_shown, desk_after_settle, without_question};

    /// The desk of a node as it starts, where the node's store and its Decision are the actors with these numbers. It takes no
    /// memory.
    pub(crate) fn new(alloc: Global, node: Name, store: u32, decision: u32) -> Desk
        ensures { result ≡ new_desk node store decision }
    {
        Desk {
            node,
            seen: 0,
            store: View::new(store),
            decision: View::new(decision),
            questions: VecDeque::new(alloc),
        }
    }

    /// Its node's name.
    pub(crate) fn node(&self) -> &Name
        ensures { result.now ≡ self.now.node }
    {
        &self.node
    }

    /// Its view of the node's store.
    pub(crate) fn store(&self) -> View
        ensures { result ≡ self.now.store }
    {
        self.store
    }

    /// Its view of the node's Decision.
    pub(crate) fn decision(&self) -> View
        ensures { result ≡ self.now.decision }
    {
        self.decision
    }

    /// The view in which it looks for what it is asked.
    pub(crate) fn view_for(&self, asked: &Asked) -> View
        ensures { result ≡ view_for self.now asked.now }
    {
        match asked {
            Asked::Key(_) => self.store,
            Asked::Prefix(_) => self.decision,
        }
    }

    /// Its oldest question, if there is one.
    pub(crate) fn oldest(&self) -> Option<&Question>
        ensures { option_map (λ q. q.now) result ≡ slice_get self.now.questions 0 }
    {
        self.questions.front()
    }

    /// So many entries are shown to it, before it takes the item, so that a question finds them. It takes no memory.
    #[tactic(auto, unfolding(crate::specs::Desk::desk_shown))]
    pub(crate) fn show(&mut self, item: &Item, at: u64)
        requires { at < 2 ^ 64 - 1 }
        ensures { self.new ≡ desk_shown self.old item.now at }
    {
        match item {
            Item::Get { .. } => self.store = self.store.with_last(at),
            Item::Ask { .. } => self.decision = self.decision.with_last(at),
            _other => {}
        }
    }

    /// It is asked, and found so many entries.
    fn open(&mut self, asked: Asked, at: u64) -> Result<(), NoMemory>
        ensures { OnOk result (self.new ≡ with_open self.old asked at) }
    {
        self.questions.push_back(Question {
            asked,
            at,
            seen: self.seen,
        })?;
        self.seen = self.seen.max(at);
        Ok(())
    }

    /// One turn, which answers the number of entries that it found. An item that asks nothing changes nothing, and finds 0.
    #[tactic(auto, unfolding(crate::specs::Desk::desk_after, crate::specs::Desk::desk_finds, crate::specs::Desk::desk_may_find))]
    pub(crate) fn take(&mut self, item: Item) -> Result<u64, NoMemory>
        ensures found { IfOk result (λ at. at ≡ desk_finds self.old item) }
        ensures may { IfOk result (λ at. IsTrue (desk_may_find self.old item at)) }
        ensures length { IfOk result (λ at. at < 2 ^ 64 - 1) }
        ensures state { IfOk result (λ at. self.new ≡ desk_after self.old item at) }
    {
        match item {
            Item::Get { key } => {
                let at = self.store.last;
                self.open(Asked::Key(key), at)?;
                Ok(at)
            }
            Item::Ask { prefix } => {
                let at = self.decision.last;
                self.open(Asked::Prefix(prefix), at)?;
                Ok(at)
            }
            _other => Ok(0),
        }
    }

    /// A settle, at which actors have so many entries, by their numbers. It takes no memory.
    pub(crate) fn settle(&mut self, counts: &[u64])
        requires { (n : _) → slice_index_or counts.now n 0 < 2 ^ 64 - 1 }
        ensures { self.new ≡ desk_after_settle counts.now self.old }
    {
        self.store = self.store.whole(counts);
        self.decision = self.decision.whole(counts);
        self.seen = self.store.last;
    }

    /// Forgets its oldest question, if there is one. It takes no memory.
    pub(crate) fn forget(&mut self)
        ensures { self.new ≡ without_question self.old }
    {
        let _question = self.questions.pop_front();
    }
}
