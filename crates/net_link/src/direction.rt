ghost use Rattle.std.specs.Prelude.{◌≡◌, ◌++◌, IfOk, OnOk};

use crate::held::HeldMsg;
use crate::holding::{count_all_down, forwards_at_once, hold, messages_of, release_due};
use or_base::{Act, Msg, NoMemory, Seq};
use std::alloc::Global;
use std::collections::VecDeque;
use std::marker::Model;
use std::mem::replace;

/// One direction of a link: what it does with the next messages, one act for each, and the messages that it holds back, in
/// the order in which they came.
#[derive(Drop)]
pub struct LinkDirection {
    script: VecDeque<Act>,
    held: Vec<HeldMsg>,
}

impl Model for LinkDirection {
    ghost use Rattle.net_link.specs.Link.{Direction};

    ghost Value = { Direction };

    ghost view = { λ d. record { script = d.script.items; held = d.held.items } };
}

/// Adds acts behind the others.
fn append_acts(script: &mut VecDeque<Act>, acts: Vec<Act>) -> Result<(), NoMemory>
    ensures { OnOk result (script.new.items ≡ script.old.items ++ acts.items) }
{
    for act in acts {
        script.push_back(act)?;
    }
    Ok(())
}

impl LinkDirection {
    ghost use Rattle.net_link.specs.Link.{no_script, next_act, held_after, direction_after, forwards, is_plain, held_messages, without_held, with_acts};

    /// No script, and nothing held back. It takes no memory.
    pub fn new(alloc: Global) -> LinkDirection
        ensures { result ≡ no_script }
    {
        LinkDirection {
            script: VecDeque::new(alloc),
            held: Vec::new(alloc),
        }
    }

    /// No act is left, and nothing is held back: each message is forwarded as it comes.
    pub fn is_plain(&self) -> bool
        ensures { result ≡ is_plain self.now }
    {
        self.script.is_empty() && self.held.is_empty()
    }

    /// Takes the act for the next message. It takes no memory.
    fn take_act(&mut self) -> Act
        ensures act { result ≡ (next_act self.old.script).0 }
        ensures left { self.new ≡ record self.old { script = (next_act self.old.script).1 } }
    {
        match self.script.pop_front() {
            Some(act) => act,
            None => Act::Pass,
        }
    }

    /// Takes all that is held back. It takes no memory.
    fn take_held(&mut self) -> Vec<HeldMsg>
        ensures held { result.items ≡ self.old.held }
        ensures left { self.new ≡ without_held self.old }
    {
        let empty = Vec::new(*self.held.allocator());
        replace(&mut self.held, empty)
    }

    /// Takes a message, and answers the messages that it forwards.
    #[tactic(auto, unfolding(crate::specs::Link::direction_after, crate::specs::Link::forwards))]
    pub fn take(&mut self, msg: Msg) -> Result<Vec<Msg>, NoMemory>
        ensures state { OnOk result (self.new ≡ direction_after self.old msg) }
        ensures forwards { IfOk result (λ msgs. msgs.items ≡ forwards self.old msg) }
    {
        let alloc = *self.held.allocator();
        let act = self.take_act();
        let mut held = count_all_down(alloc, self.take_held())?;
        hold(&mut held, act, &msg)?;
        let mut forwarded = forwards_at_once(alloc, act, msg)?;
        self.held = release_due(alloc, held, &mut forwarded)?;
        Ok(forwarded)
    }

    /// Takes all messages that are held back, whatever their counters.
    pub fn take_all_held(&mut self) -> Result<Vec<Msg>, NoMemory>
        ensures state { OnOk result (self.new ≡ without_held self.old) }
        ensures held { IfOk result (λ msgs. msgs.items ≡ held_messages self.old) }
    {
        let alloc = *self.held.allocator();
        let held = self.take_held();
        messages_of(alloc, held)
    }

    /// Loses all messages that are held back. It takes no memory.
    pub fn lose_held(&mut self)
        ensures { self.new ≡ without_held self.old }
    {
        self.held.clear();
    }

    /// Adds acts to the script.
    pub fn add_acts(&mut self, acts: Seq<Act>) -> Result<(), NoMemory>
        ensures { OnOk result (self.new ≡ with_acts self.old acts) }
    {
        append_acts(&mut self.script, acts.into_vec()?)?;
        Ok(())
    }
}
