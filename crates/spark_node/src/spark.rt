ghost use Rattle.std.specs.Prelude.{◌≡◌, ◌++◌, ◌<◌, IsTrue, IfOk, OnOk, map, List};
ghost use Rattle.std.specs.List.{flat_map, All};
ghost use Rattle.or_actor.specs.Fits.{link_number_end};
ghost use Rattle.or_actor.specs.declared.output.Output.{Output};
ghost use Rattle.spark_node.specs.declared.link.SparkLink.{SparkLink};
ghost use Rattle.spark_node.specs.Spark.{down_link, moment_after, link_turn};

use crate::link::SparkLink;
use or_actor::{LinkEnd, Module, Outbox, has_small_link};
use or_base::{Item, Name, NoMemory};
use std::alloc::Global;
use std::marker::Model;

/// Spark of a node: it finds the neighbours on the node's links, holds them and loses them.
#[derive(Drop)]
pub struct SparkModule {
    me: Name,
    /// The last moment that a tick told.
    moment: u64,
    links: Vec<SparkLink>,
}

impl Model for SparkModule {
    ghost use Rattle.std.specs.Prelude.{◌<◌};
    ghost use Rattle.std.specs.List.{All};
    ghost use Rattle.or_actor.specs.Fits.{link_number_end};
    ghost use Rattle.spark_node.specs.Spark.{SparkState};

    ghost Value = { SparkState };

    ghost view = { λ m. record { me = m.me; moment = m.moment; links = m.links.items } };

    ghost invariant = { λ m. All (λ l. l.end.link < link_number_end) m.links.items };
}

/// The links at these ends, none of which is up.
fn down_links(alloc: Global, ends: Vec<LinkEnd>) -> Result<Vec<SparkLink>, NoMemory>
    ensures { IfOk result (λ links. links.items ≡ map down_link ends.items) }
{
    let mut links = Vec::new(alloc);
    for end in ends {
        links.push(SparkLink::new(end))?;
    }
    Ok(links)
}

/// The moment behind an item.
fn moment_after(moment: u64, item: &Item) -> u64
    ensures { result ≡ moment_after moment item.now }
{
    match item {
        Item::Tick { at } => *at,
        _other => moment,
    }
}

/// The item is taken for each link, in order.
fn turn_all(
    links: &mut [SparkLink],
    me: &Name,
    now: u64,
    item: &Item,
    out: &mut Outbox,
) -> Result<(), NoMemory>
    requires { All (λ l. l.end.link < link_number_end) links.old }
    ensures small { All (λ l. l.end.link < link_number_end) links.new }
    ensures links { OnOk result (links.new ≡ map (λ (t : SparkLink × List Output). t.0) (map (λ l. link_turn me.now now l item.now) links.old)) }
    ensures sent { OnOk result (out.new ≡ out.old ++ flat_map (λ (t : SparkLink × List Output). t.1) (map (λ l. link_turn me.now now l item.now) links.old)) }
{
    for link in links.iter_mut() {
        link.turn(me, now, item, out)?;
    }
    Ok(())
}

impl SparkModule {
    ghost use Rattle.or_actor.specs.Fits.{link_number_end, has_small_link, have_small_links};
    ghost use Rattle.spark_node.specs.Spark.{new_spark, spark_step};

    /// Spark of the node `me`, with the ends of its links, none of which is up. Their numbers are below `LINK_NUMBER_END`.
    #[tactic(auto, using(crate::proofs::Small::small_links))]
    pub fn new(alloc: Global, me: Name, ends: Vec<LinkEnd>) -> Result<SparkModule, NoMemory>
        requires { All (λ end. end.link < link_number_end) ends.items }
        ensures { IfOk result (λ spark. spark ≡ new_spark me ends.items) }
    {
        let links = down_links(alloc, ends)?;
        let moment = 0;
        Ok(SparkModule { me, moment, links })
    }

    /// One turn.
    #[tactic(auto, unfolding(crate::specs::Spark::spark_step), using(crate::proofs::Small::stepping))]
    fn step(&mut self, item: &Item, out: &mut Outbox) -> Result<(), NoMemory>
        requires { IsTrue (has_small_link item.now) }
        ensures state { OnOk result (self.new ≡ (spark_step self.old item.now).0) }
        ensures sent { OnOk result (out.new ≡ out.old ++ (spark_step self.old item.now).1) }
        ensures small { OnOk result (IsTrue (have_small_links (spark_step self.old item.now).1)) }
    {
        self.moment = moment_after(self.moment, item);
        turn_all(&mut self.links, &self.me, self.moment, item, out)
    }
}

impl Module for SparkModule {
    ghost use Rattle.or_actor.specs.Fits.{has_small_link};
    ghost use Rattle.or_actor.specs.Steps.{finds_nothing};
    ghost use Rattle.spark_node.specs.Spark.{SparkState, spark_step};

    ghost State = { SparkState };

    ghost state = { λ m. m };

    ghost may_take = { λ s item. has_small_link item };

    ghost may_find = { λ s item at. finds_nothing at };

    ghost step = { λ s lane item at. spark_step s item };

    fn fits(&self, item: &Item) -> bool {
        has_small_link(item)
    }

    fn turn(&mut self, _lane: u32, item: Item, out: &mut Outbox) -> Result<u64, NoMemory> {
        self.step(&item, out)?;
        Ok(0)
    }
}
