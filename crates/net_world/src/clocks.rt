ghost use Rattle.std.specs.Prelude.{◌≡◌, ◌-◌, ◌<◌, ◌^◌, map, slice_index_or, IfOk, OnOk, OnErr};
ghost use Rattle.net_record.specs.Actors.{entry_counts, actor_after_settle, actors_after_settle};
ghost use Rattle.net_record.specs.World.{driver_clock, greatest_clock};

use net_record::ActorState;
use or_base::NoMemory;
use std::alloc::Global;

/// The clock of the driver, which is the first actor.
pub fn driver_clock(actors: &[ActorState]) -> u64
    ensures { result ≡ driver_clock actors.now }
{
    match actors.first() {
        Some(driver) => driver.clock,
        None => 0,
    }
}

/// The greatest clock of the actors.
pub fn greatest_clock(actors: &[ActorState]) -> u64
    ensures { result ≡ greatest_clock actors.now }
{
    let mut greatest = 0;
    for actor in actors {
        greatest = actor.clock.max(greatest);
    }
    greatest
}

/// The counts of the actors' journals, by their numbers.
fn entry_counts(alloc: Global, actors: &[ActorState]) -> Result<Vec<u64>, NoMemory>
    ensures counts { IfOk result (λ counts. counts.items ≡ entry_counts actors.now) }
    ensures small { IfOk result (λ counts. (n : _) → slice_index_or counts.items n 0 < 2 ^ 64 - 1) }
{
    let mut counts = Vec::new(alloc);
    for actor in actors {
        counts.push(actor.part.entries().len() as u64)?;
    }
    Ok(counts)
}

/// A settle of each actor, at which the journals have these counts.

fn settle_each(actors: &mut Vec<ActorState>, clock: u64, counts: &[u64])
    requires { (n : _) → slice_index_or counts.now n 0 < 2 ^ 64 - 1 }
    ensures { actors.new.items ≡ map (actor_after_settle clock counts.now) actors.old.items }
{
    for number in 0..actors.len() {
        let actor = &mut actors[number];
        actor.settle(clock, counts);
    }
}

/// A settle: it sets the clock of each actor, tells of the full syncs that each finished, and lets each desk see the whole
/// journal of its node's store. Out of memory, the actors stay as they were.
pub fn settle_all(alloc: Global, actors: &mut Vec<ActorState>, clock: u64) -> Result<(), NoMemory>
    ensures ok { OnOk result (actors.new.items ≡ actors_after_settle clock actors.old.items) }
    ensures err { OnErr result (actors.new.items ≡ actors.old.items) }
{
    let counts = entry_counts(alloc, actors.as_slice())?;
    settle_each(actors, clock, counts.as_slice());
    Ok(())
}
