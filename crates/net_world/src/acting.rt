ghost use Rattle.std.specs.Prelude.{◌≡◌, ◌+◌, ◌-◌, ◌<◌, ◌^◌, [], All, IsTrue, length, IfOk, OnOk, OnErr};
ghost use Rattle.or_actor.specs.Fits.{has_small_link, have_small_links};
ghost use Rattle.net_record.specs.Actors.{actor_at, outputs_of};
ghost use Rattle.net_world.specs.Acting.{made_from, actors_after};
ghost use Rattle.net_world.specs.Sound.{IsClockedBelow, StayClocked};

use net_record::{ActorState, made_for};
use or_actor::Outbox;
use or_base::{NoMemory, Stamped};

/// The turn of an actor with an item of a lane, in which a desk finds a journal of the length `at`. What it sends goes into
/// the empty outbox, and the answer is its stamp. Out of memory, the clocks stay as they were.
#[tactic(auto, using(crate::proofs::Acted::acting))]
pub fn act(
    actors: &mut Vec<ActorState>,
    number: u32,
    lane: u32,
    taken: Stamped,
    at: u64,
    out: &mut Outbox,
) -> Result<u64, NoMemory>
    requires there { number < length actors.old.items }
    requires item { IsTrue (has_small_link taken.item) }
    requires at { at < 2 ^ 64 - 1 }
    requires stamp { taken.stamp + 1 < 2 ^ 64 }
    requires nothing { out.old ≡ [] }
    requires clocks { All (IsClockedBelow (2 ^ 64 - 2)) actors.old.items }
    ensures state { OnOk result (actors.new.items ≡ actors_after actors.old.items number (made_from actors.old.items number lane at taken)) }
    ensures stamp { IfOk result (λ stamp. stamp ≡ (made_from actors.old.items number lane at taken).stamp) }
    ensures sent { OnOk result (out.new ≡ outputs_of (actor_at actors.old.items number) (made_from actors.old.items number lane at taken)) }
    ensures small { OnOk result (IsTrue (have_small_links out.new)) }
    ensures err { OnErr result (StayClocked actors.old.items actors.new.items) }
{
    let reader = &actors[number as usize];
    let found = made_for(actors.as_slice(), &reader.part, &taken.item, at);
    let actor = &mut actors[number as usize];
    let stamp = actor.turn(lane, taken, at, found, out)?;
    Ok(stamp)
}
