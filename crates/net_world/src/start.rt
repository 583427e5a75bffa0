ghost use Rattle.std.specs.Prelude.{◌≡◌, All, map, IfOk};
ghost use Rattle.net_record.specs.Actors.{new_actor};
ghost use Rattle.net_record.specs.Small.{HasSmallNumber};

use net_record::{ActorState, Role};
use or_base::{Kind, NoMemory};
use std::alloc::Global;

/// The actors of these roles as they start, in a laboratory of this kind.
pub fn new_actors(alloc: Global, kind: Kind, all: &[Role]) -> Result<Vec<ActorState>, NoMemory>
    requires { All HasSmallNumber all.now }
    ensures { IfOk result (λ actors. actors.items ≡ map (new_actor kind) all.now) }
{
    let mut actors = Vec::new(alloc);
    for role in all {
        actors.push(ActorState::new(alloc, kind, role)?)?;
    }
    Ok(actors)
}
