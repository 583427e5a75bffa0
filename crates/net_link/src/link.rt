ghost use Rattle.std.specs.Prelude.{◌≡◌, ◌++◌, [], ◌∷◌, ◌<◌, IsTrue, IfOk, OnOk, Some, map, false};
ghost use Rattle.or_base.specs.declared.item.Item.TheVariants.{Net};
ghost use Rattle.or_actor.specs.declared.output.Output.TheVariants.{To};
ghost use Rattle.net_link.specs.End.{port_for};

use crate::direction::LinkDirection;
use crate::end::{End, other_end, port_for, spark_port_of, store_port_of};
use or_actor::{Module, Outbox, has_small_link};
use or_base::{Act, Item, Kind, Msg, Name, NoMemory, Seq};
use std::alloc::Global;
use std::marker::Model;

/// A link between two nodes, which carries messages while it is up. Its kind is that of its laboratory.
#[derive(Drop)]
pub struct LinkModule {
    kind: Kind,
    link: u32,
    a: Name,
    b: Name,
    is_up: bool,
    from_a: LinkDirection,
    from_b: LinkDirection,
}

impl Model for LinkModule {
    ghost use Rattle.std.specs.Prelude.{◌<◌};
    ghost use Rattle.or_actor.specs.Fits.{link_number_end};
    ghost use Rattle.net_link.specs.Link.{LinkState};

    ghost Value = { LinkState };

    ghost view = { λ m. record { kind = m.kind; link = m.link; a = m.a; b = m.b; is_up = m.is_up; from_a = m.from_a; from_b = m.from_b } };

    ghost invariant = { λ m. m.link < link_number_end };
}

/// Sends the messages of a node to the modules of an end for which they are, in order.
fn send_all(
    out: &mut Outbox,
    end: End,
    link: u32,
    from: &Name,
    msgs: Vec<Msg>,
) -> Result<(), NoMemory>
    ensures { OnOk result (out.new ≡ out.old ++ map (λ msg. To (port_for end msg) (Net link from.now msg)) msgs.items) }
{
    for msg in msgs {
        let from = from.copied()?;
        let port = port_for(end, &msg);
        out.send(port, Item::Net { link, from, msg })?;
    }
    Ok(())
}

impl LinkModule {
    ghost use Rattle.or_actor.specs.Fits.{link_number_end, has_small_link, have_small_links};
    ghost use Rattle.net_link.specs.declared.end.End.TheVariants.{A, B};
    ghost use Rattle.net_link.specs.End.{other_end, port_for};
    ghost use Rattle.net_link.specs.Link.{new_link, node_at, direction_from, with_direction, end_of, message_to, up_to, down_to, carry_step, script_step, without_held_messages, held_from, link_step, direction_after, forwards, is_plain, held_messages, without_held, with_acts};

    /// A link of a laboratory of this kind, between the nodes a and b. It is down. Its number is below `LINK_NUMBER_END`.
    /// It takes no memory.
    pub fn new(alloc: Global, kind: Kind, link: u32, a: Name, b: Name) -> LinkModule
        requires { link < link_number_end }
        ensures { result ≡ new_link kind link a b }
    {
        LinkModule {
            kind,
            link,
            a,
            b,
            is_up: false,
            from_a: LinkDirection::new(alloc),
            from_b: LinkDirection::new(alloc),
        }
    }

    /// The node at an end.
    fn node_at(&self, end: End) -> &Name
        ensures { result.now ≡ node_at self.now end }
    {
        match end {
            End::A => &self.a,
            End::B => &self.b,
        }
    }

    /// The end of a node, if it is at one.
    fn end_of(&self, node: &Name) -> Option<End>
        ensures { result ≡ end_of self.now node.now }
    {
        if node.as_str() == self.a.as_str() {
            Some(End::A)
        } else if node.as_str() == self.b.as_str() {
            Some(End::B)
        } else {
            None
        }
    }

    /// Tells an end that the link carries: among stores the store there, that the node at the other end can be reached; in
    /// a full laboratory Spark.
    fn tell_up(&self, end: End, out: &mut Outbox) -> Result<(), NoMemory>
        ensures { OnOk result (out.new ≡ out.old ++ up_to self.now end ∷ []) }
    {
        let link = self.link;
        match self.kind {
            Kind::Stores => {
                let peer = self.node_at(other_end(end)).copied()?;
                out.send(store_port_of(end), Item::PeerUp { link, peer })?;
            }
            Kind::Full => out.send(spark_port_of(end), Item::LinkUp { link })?,
        }
        Ok(())
    }

    /// Tells it that the link carries no longer.
    fn tell_down(&self, end: End, out: &mut Outbox) -> Result<(), NoMemory>
        ensures { OnOk result (out.new ≡ out.old ++ down_to self.now end ∷ []) }
    {
        let link = self.link;
        match self.kind {
            Kind::Stores => out.send(store_port_of(end), Item::PeerDown { link })?,
            Kind::Full => out.send(spark_port_of(end), Item::LinkDown { link })?,
        }
        Ok(())
    }

    /// Sends messages of the other end to the modules of this end for which they are.
    fn send_to(&self, end: End, msgs: Vec<Msg>, out: &mut Outbox) -> Result<(), NoMemory>
        ensures { OnOk result (out.new ≡ out.old ++ map (message_to self.now end) msgs.items) }
    {
        let from = self.node_at(other_end(end));
        send_all(out, end, self.link, from, msgs)?;
        Ok(())
    }

    /// Takes a message of an end into its direction, and answers the messages that it forwards.
    fn take_from(&mut self, from: End, msg: Msg) -> Result<Vec<Msg>, NoMemory>
        ensures state { OnOk result (self.new ≡ with_direction self.old from (direction_after (direction_from self.old from) msg)) }
        ensures forwards { IfOk result (λ msgs. msgs.items ≡ forwards (direction_from self.old from) msg) }
    {
        match from {
            End::A => Ok(self.from_a.take(msg)?),
            End::B => Ok(self.from_b.take(msg)?),
        }
    }

    /// Takes all that the direction of an end's messages holds back.
    fn take_held_from(&mut self, from: End) -> Result<Vec<Msg>, NoMemory>
        ensures state { OnOk result (self.new ≡ with_direction self.old from (without_held (direction_from self.old from))) }
        ensures held { IfOk result (λ msgs. msgs.items ≡ held_messages (direction_from self.old from)) }
    {
        match from {
            End::A => Ok(self.from_a.take_all_held()?),
            End::B => Ok(self.from_b.take_all_held()?),
        }
    }

    /// The direction of an end's messages is plain.
    fn is_plain_from(&self, from: End) -> bool
        ensures { result ≡ is_plain (direction_from self.now from) }
    {
        match from {
            End::A => self.from_a.is_plain(),
            End::B => self.from_b.is_plain(),
        }
    }

    /// Sends a message of the node at an end, as it came, to the module of the other end for which it is.
    fn pass_on(&self, from: End, node: Name, msg: Msg, out: &mut Outbox) -> Result<(), NoMemory>
        ensures { OnOk result (out.new ≡ out.old ++ To (port_for (other_end from) msg) (Net self.now.link node msg) ∷ []) }
    {
        let port = port_for(other_end(from), &msg);
        let item = Item::Net {
            link: self.link,
            from: node,
            msg,
        };
        out.send(port, item)?;
        Ok(())
    }

    /// Carries a message of an end to the other, through the direction.
    #[tactic(auto, unfolding(crate::specs::Link::carry_step))]
    fn carry_through(&mut self, from: End, msg: Msg, out: &mut Outbox) -> Result<(), NoMemory>
        ensures state { OnOk result (self.new ≡ (carry_step self.old (Some from) msg).0) }
        ensures sent { OnOk result (out.new ≡ out.old ++ (carry_step self.old (Some from) msg).1) }
    {
        let msgs = self.take_from(from, msg)?;
        self.send_to(other_end(from), msgs, out)?;
        Ok(())
    }

    /// Carries a message of a node to the other end. That of a node at no end is lost. Nearly all directions are plain:
    /// there it goes straight on, with no list made.
    #[tactic(auto, unfolding(crate::specs::Link::carry_step), using(crate::proofs::Plain::carry_plain))]
    fn carry(&mut self, node: Name, msg: Msg, out: &mut Outbox) -> Result<(), NoMemory>
        ensures state { OnOk result (self.new ≡ (carry_step self.old (end_of self.old node) msg).0) }
        ensures sent { OnOk result (out.new ≡ out.old ++ (carry_step self.old (end_of self.old node) msg).1) }
    {
        if let Some(from) = self.end_of(&node) {
            if self.is_plain_from(from) {
                self.pass_on(from, node, msg, out)?;
            } else {
                self.carry_through(from, msg, out)?;
            }
        }
        Ok(())
    }

    /// Adds acts to the script of an end's direction.
    #[tactic(auto, unfolding(crate::specs::Link::script_step))]
    fn script(&mut self, from: Option<End>, acts: Seq<Act>) -> Result<(), NoMemory>
        ensures { OnOk result (self.new ≡ script_step self.old from acts) }
    {
        match from {
            Some(End::A) => self.from_a.add_acts(acts)?,
            Some(End::B) => self.from_b.add_acts(acts)?,
            None => {}
        }
        Ok(())
    }

    /// Forwards what the direction of an end's messages holds back.
    fn flush_from(&mut self, from: End, out: &mut Outbox) -> Result<(), NoMemory>
        ensures state { OnOk result (self.new ≡ with_direction self.old from (without_held (direction_from self.old from))) }
        ensures sent { OnOk result (out.new ≡ out.old ++ held_from self.old from) }
    {
        let msgs = self.take_held_from(from)?;
        self.send_to(other_end(from), msgs, out)?;
        Ok(())
    }

    /// Forwards all that is held back, the messages of end a first.
    fn flush(&mut self, out: &mut Outbox) -> Result<(), NoMemory>
        ensures state { OnOk result (self.new ≡ without_held_messages self.old) }
        ensures sent { OnOk result (out.new ≡ out.old ++ (held_from self.old A ++ held_from self.old B)) }
    {
        self.flush_from(End::A, out)?;
        self.flush_from(End::B, out)?;
        Ok(())
    }

    /// Goes down, and loses all that is held back. It takes no memory.
    fn go_down(&mut self)
        ensures { self.new ≡ record (without_held_messages self.old) { is_up = false } }
    {
        self.from_a.lose_held();
        self.from_b.lose_held();
        self.is_up = false;
    }

    /// One turn.
    #[tactic(auto, unfolding(crate::specs::Link::link_step), using(crate::proofs::Sending::small_step))]
    fn step(&mut self, item: Item, out: &mut Outbox) -> Result<(), NoMemory>
        requires { IsTrue (has_small_link item) }
        ensures state { OnOk result (self.new ≡ (link_step self.old item).0) }
        ensures sent { OnOk result (out.new ≡ out.old ++ (link_step self.old item).1) }
        ensures small { OnOk result (IsTrue (have_small_links (link_step self.old item).1)) }
    {
        let is_up = self.is_up;
        match item {
            Item::Up => {
                if !is_up {
                    self.tell_up(End::A, out)?;
                    self.tell_up(End::B, out)?;
                    self.is_up = true;
                }
            }
            Item::Down => {
                if is_up {
                    self.tell_down(End::A, out)?;
                    self.tell_down(End::B, out)?;
                    self.go_down();
                }
            }
            Item::Script { from, acts } => self.script(self.end_of(&from), acts)?,
            Item::Tick { at: _ } => self.flush(out)?,
            Item::Net { link: _, from, msg } => {
                if is_up {
                    self.carry(from, msg, out)?;
                }
            }
            _other => {}
        }
        Ok(())
    }
}

impl Module for LinkModule {
    ghost use Rattle.or_actor.specs.Fits.{has_small_link};
    ghost use Rattle.or_actor.specs.Steps.{finds_nothing};
    ghost use Rattle.net_link.specs.Link.{LinkState, link_step};

    ghost State = { LinkState };

    ghost state = { λ m. m };

    ghost may_take = { λ s item. has_small_link item };

    ghost may_find = { λ s item at. finds_nothing at };

    ghost step = { λ s lane item at. link_step s item };

    fn fits(&self, item: &Item) -> bool {
        has_small_link(item)
    }

    fn turn(&mut self, _lane: u32, item: Item, out: &mut Outbox) -> Result<u64, NoMemory> {
        self.step(item, out)?;
        Ok(0)
    }
}
