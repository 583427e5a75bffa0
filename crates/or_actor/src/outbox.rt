ghost use Rattle.std.specs.Prelude.{◌≡◌, [], ◌∷◌, ◌++◌, MatchOption, OnOk, OnErr};

use crate::output::Output;
use or_base::{Item, NoMemory};
use std::alloc::Global;
use std::collections::VecDeque;
use std::marker::Model;

/// What a turn sends, in order. Contracts see it as the list of its outputs. It keeps its memory from turn to turn.
#[derive(Drop)]
pub struct Outbox {
    outputs: VecDeque<Output>,
}

impl Model for Outbox {
    ghost use Rattle.std.specs.Prelude.{List};
    ghost use Rattle.or_actor.specs.declared.output.Output.{Output};

    ghost Value = { List Output };

    ghost view = { λ outbox. outbox.outputs.items };
}

impl Outbox {
    ghost use Rattle.or_actor.specs.declared.output.Output.TheVariants.{To};

    /// Nothing is sent yet. It takes no memory.
    pub fn new(alloc: Global) -> Outbox
        ensures { result ≡ [] }
    {
        Outbox {
            outputs: VecDeque::new(alloc),
        }
    }

    /// These outputs are sent, in order. It takes no memory.
    pub fn from_outputs(outputs: Vec<Output>) -> Outbox
        ensures { result ≡ outputs.items }
    {
        Outbox {
            outputs: VecDeque::from_vec(outputs),
        }
    }

    /// Sends the item to the lane of a port.
    pub fn send(&mut self, lane: u32, item: Item) -> Result<(), NoMemory>
        ensures ok { OnOk result (self.new ≡ self.old ++ To lane item ∷ []) }
        ensures err { OnErr result (self.new ≡ self.old) }
    {
        self.outputs.push_back(Output::To { lane, item })?;
        Ok(())
    }

    /// Takes out what was sent first, if there is something. It takes no memory.
    pub fn take_first(&mut self) -> Option<Output>
        ensures { MatchOption result ((self.old ≡ []) × (self.new ≡ [])) (λ first. self.old ≡ first ∷ self.new) }
    {
        self.outputs.pop_front()
    }

    /// Forgets what was sent. It takes no memory.
    pub fn clear(&mut self)
        ensures { self.new ≡ [] }
    {
        self.outputs.clear();
    }
}
