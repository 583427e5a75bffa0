ghost use Rattle.std.specs.Prelude.{◌≡◌, ◌++◌, ◌<◌, OnOk};
ghost use Rattle.or_actor.specs.Fits.{link_number_end};

use crate::neighbour::Neighbour;
use crate::sending::{send_hello, tell_down};
use or_actor::{LinkEnd, Outbox};
use or_base::{Item, Msg, Name, NoMemory};

/// A link of Spark's node.
#[derive(Drop)]
pub struct SparkLink {
    pub end: LinkEnd,
    /// The neighbour there, while the link is up.
    pub neighbour: Option<Neighbour>,
}

impl SparkLink {
    ghost use Rattle.spark_node.specs.Spark.{down_link, is_for, while_up, come_up, go_down, take_tick, take_message, begin_anew, link_turn};

    /// A link that isn't up. It takes no memory.
    pub fn new(end: LinkEnd) -> SparkLink
        ensures { result ≡ down_link end }
    {
        SparkLink {
            end,
            neighbour: None,
        }
    }

    /// An item for this link.
    fn is_for(&self, link: u32) -> bool
        ensures { result ≡ is_for self.now.end link }
    {
        self.end.link == link
    }

    /// The link comes up, where it isn't.
    fn come_up(&mut self, me: &Name, out: &mut Outbox) -> Result<(), NoMemory>
        requires { self.old.end.link < link_number_end }
        ensures end { self.new.end ≡ self.old.end }
        ensures link { OnOk result (self.new ≡ (come_up me.now self.old.end self.old.neighbour).0) }
        ensures sent { OnOk result (out.new ≡ out.old ++ (come_up me.now self.old.end self.old.neighbour).1) }
    {
        if self.neighbour.is_none() {
            let neighbour = Neighbour::unheard();
            send_hello(me, &self.end, &neighbour, out)?;
            self.neighbour = Some(neighbour);
        }
        Ok(())
    }

    /// The link goes down, and the neighbour is lost.
    fn go_down(&mut self, out: &mut Outbox) -> Result<(), NoMemory>
        ensures end { self.new.end ≡ self.old.end }
        ensures link { OnOk result (self.new ≡ (go_down self.old).0) }
        ensures sent { OnOk result (out.new ≡ out.old ++ (go_down self.old).1) }
    {
        if let Some(neighbour) = &self.neighbour {
            tell_down(&self.end, neighbour, out)?;
        }
        self.neighbour = None;
        Ok(())
    }

    /// The moment is this.
    fn tick(&mut self, me: &Name, now: u64, out: &mut Outbox) -> Result<(), NoMemory>
        requires { self.old.end.link < link_number_end }
        ensures end { self.new.end ≡ self.old.end }
        ensures link { OnOk result (self.new ≡ (while_up self.old (take_tick me.now now self.old.end)).0) }
        ensures sent { OnOk result (out.new ≡ out.old ++ (while_up self.old (take_tick me.now now self.old.end)).1) }
    {
        if let Some(neighbour) = &mut self.neighbour {
            neighbour.take_tick(me, now, &self.end, out)?;
        }
        Ok(())
    }

    /// The node restarts.
    fn restart(&mut self, me: &Name, out: &mut Outbox) -> Result<(), NoMemory>
        requires { self.old.end.link < link_number_end }
        ensures end { self.new.end ≡ self.old.end }
        ensures link { OnOk result (self.new ≡ (while_up self.old (begin_anew me.now self.old.end)).0) }
        ensures sent { OnOk result (out.new ≡ out.old ++ (while_up self.old (begin_anew me.now self.old.end)).1) }
    {
        if let Some(neighbour) = &mut self.neighbour {
            neighbour.begin_anew(me, &self.end, out)?;
        }
        Ok(())
    }

    /// A message of a node came over the link.
    fn receive(
        &mut self,
        me: &Name,
        now: u64,
        from: &Name,
        msg: &Msg,
        out: &mut Outbox,
    ) -> Result<(), NoMemory>
        requires { self.old.end.link < link_number_end }
        ensures end { self.new.end ≡ self.old.end }
        ensures link { OnOk result (self.new ≡ (while_up self.old (λ n. take_message me.now now self.old.end n from.now msg.now)).0) }
        ensures sent { OnOk result (out.new ≡ out.old ++ (while_up self.old (λ n. take_message me.now now self.old.end n from.now msg.now)).1) }
    {
        if let Some(neighbour) = &mut self.neighbour {
            neighbour.take_message(me, now, &self.end, from, msg, out)?;
        }
        Ok(())
    }

    /// One turn for the link, at this moment.
    #[tactic(auto, unfolding(crate::specs::Spark::link_turn))]
    pub fn turn(
        &mut self,
        me: &Name,
        now: u64,
        item: &Item,
        out: &mut Outbox,
    ) -> Result<(), NoMemory>
        requires { self.old.end.link < link_number_end }
        ensures end { self.new.end ≡ self.old.end }
        ensures link { OnOk result (self.new ≡ (link_turn me.now now self.old item.now).0) }
        ensures sent { OnOk result (out.new ≡ out.old ++ (link_turn me.now now self.old item.now).1) }
    {
        match item {
            Item::LinkUp { link } => {
                if self.is_for(*link) {
                    self.come_up(me, out)?;
                }
            }
            Item::LinkDown { link } => {
                if self.is_for(*link) {
                    self.go_down(out)?;
                }
            }
            Item::Tick { at: _ } => self.tick(me, now, out)?,
            Item::Restart => self.restart(me, out)?,
            Item::Net { link, from, msg } => {
                if self.is_for(*link) {
                    self.receive(me, now, from, msg, out)?;
                }
            }
            _other => {}
        }
        Ok(())
    }
}
