ghost use Rattle.std.specs.Prelude.{◌≡◌, [], ◌∷◌, map, length, OnOk, IfOk};
ghost use Rattle.ls_routes.specs.Routes.{applied};
ghost use Rattle.fib_core.specs.Agent.{is_refused, agent_after};

use crate::agent::FibAgent;
use crate::mem_agent::MemAgent;
use crate::op::FibOp;
use crate::refusal::AgentRefusal;
use ls_routes::RouteDb;
use or_actor::{Module, Outbox, has_small_link};
use or_base::{Delta, Item, Name, NoMemory, Prefix, Route, Seq};
use std::marker::Model;

/// Fib of a node.
#[derive(Drop)]
pub struct FibModule {
    me: Name,
    wanted: RouteDb,
    agent: MemAgent,
    dirty: bool,
}

impl Model for FibModule {
    ghost use Rattle.fib_core.specs.Fib.{FibState};

    ghost Value = { FibState };

    ghost view = { λ m. record { me = m.me; wanted = m.wanted; agent = m.agent; dirty = m.dirty } };
}

/// Asks the agent, and tells whether it refused.
fn is_refused_by(agent: &mut MemAgent, op: &FibOp) -> Result<bool, NoMemory>
    ensures answer { IfOk result (λ refused. refused ≡ is_refused agent.old) }
    ensures agent { OnOk result (agent.new ≡ agent_after agent.old op.now) }
{
    match agent.apply(op) {
        Ok(()) => Ok(false),
        Err(AgentRefusal::Fault) => Ok(true),
        Err(AgentRefusal::NoMemory) => Err(NoMemory),
    }
}

impl FibModule {
    ghost use Rattle.fib_core.specs.Agent.{ops_of};
    ghost use Rattle.fib_core.specs.Fib.{new_fib, asked, programmed, mended, fib_after};
    ghost use Rattle.fib_core.specs.declared.op.FibOp.TheVariants.{Del, Set};

    /// Fib of the node `me`, over an agent that refuses the calls whose numbers, from 1, are listed. No route is wanted or
    /// programmed. It takes no memory.
    pub fn new(me: Name, failing: Vec<u64>) -> FibModule
        ensures { result ≡ new_fib me failing.items }
    {
        let alloc = *failing.allocator();
        FibModule {
            me,
            wanted: RouteDb::new(alloc),
            agent: MemAgent::new(failing),
            dirty: false,
        }
    }

    /// The agent refused its last call, so that it may not have all routes that are wanted. It takes no memory.
    pub fn dirty(&self) -> bool
        ensures { result ≡ self.now.dirty }
    {
        self.dirty
    }

    /// The routes that are wanted. It takes no memory.
    pub fn wanted(&self) -> &RouteDb
        ensures { result.now ≡ self.now.wanted }
    {
        &self.wanted
    }

    /// What programs the routes. It takes no memory.
    pub fn agent(&self) -> &MemAgent
        ensures { result.now ≡ self.now.agent }
    {
        &self.agent
    }

    /// How many routes are programmed. It takes no memory.
    pub fn programmed(&self) -> usize
        ensures { result ≡ length self.now.agent.table }
    {
        self.agent.table().len()
    }

    /// Asks the agent.
    fn ask(&mut self, op: &FibOp) -> Result<(), NoMemory>
        ensures { OnOk result (self.new ≡ asked self.old (op.now ∷ [])) }
    {
        self.dirty = is_refused_by(&mut self.agent, op)?;
        Ok(())
    }

    /// Asks the agent, if it is clean.
    fn program(&mut self, op: &FibOp) -> Result<(), NoMemory>
        ensures { OnOk result (self.new ≡ programmed self.old (op.now ∷ [])) }
    {
        if !self.dirty {
            self.ask(op)?;
        }
        Ok(())
    }

    /// The routes to these prefixes go, if it is clean.
    fn program_deleted(&mut self, prefixes: &[Prefix]) -> Result<(), NoMemory>
        ensures { OnOk result (self.new ≡ programmed self.old (map Del prefixes.now)) }
    {
        for prefix in prefixes {
            self.program(&FibOp::Del(*prefix))?;
        }
        Ok(())
    }

    /// Each of these routes takes the place of the one to its prefix, if it is clean.
    fn program_set(&mut self, routes: &[Route]) -> Result<(), NoMemory>
        ensures { OnOk result (self.new ≡ programmed self.old (map Set routes.now)) }
    {
        for route in routes {
            self.program(&FibOp::Set(route.copied()?))?;
        }
        Ok(())
    }

    /// Has the agent follow a change, if it is clean.
    #[tactic(auto, using(crate::proofs::Asking::programmed_both))]
    fn program_all(&mut self, delta: &Delta) -> Result<(), NoMemory>
        ensures { OnOk result (self.new ≡ programmed self.old (ops_of delta.now)) }
    {
        self.program_deleted(delta.del.as_slice())?;
        self.program_set(delta.set.as_slice())
    }

    /// What changes is wanted from now on.
    fn want(&mut self, delta: &Delta) -> Result<(), NoMemory>
        ensures { OnOk result (self.new ≡ record self.old { wanted = applied self.old.wanted delta.now }) }
    {
        self.wanted.apply(delta)
    }

    /// Has the agent take all routes that are wanted, if it is dirty.
    fn mend(&mut self) -> Result<(), NoMemory>
        ensures { OnOk result (self.new ≡ mended self.old) }
    {
        if self.dirty {
            let routes = self.wanted.routes()?;
            self.ask(&FibOp::Whole(Seq::from_vec(routes)))?;
        }
        Ok(())
    }

    /// Takes an item.
    #[tactic(auto, unfolding(crate::specs::Fib::fib_after))]
    fn take(&mut self, item: &Item) -> Result<(), NoMemory>
        ensures { OnOk result (self.new ≡ fib_after self.old item.now) }
    {
        match item {
            Item::Routes { delta } => {
                self.want(delta)?;
                self.program_all(delta)?;
            }
            Item::Tick { .. } => self.mend()?,
            _other => {}
        }
        Ok(())
    }
}

impl Module for FibModule {
    ghost use Rattle.or_actor.specs.Fits.{has_small_link};
    ghost use Rattle.or_actor.specs.Steps.{finds_nothing};
    ghost use Rattle.fib_core.specs.Fib.{FibState, fib_step};

    ghost State = { FibState };

    ghost state = { λ m. m };

    ghost may_take = { λ s item. has_small_link item };

    ghost may_find = { λ s item at. finds_nothing at };

    ghost step = { λ s lane item at. fib_step s item };

    fn fits(&self, item: &Item) -> bool {
        has_small_link(item)
    }

    fn turn(&mut self, _lane: u32, item: Item, _out: &mut Outbox) -> Result<u64, NoMemory> {
        self.take(&item)?;
        Ok(0)
    }
}
