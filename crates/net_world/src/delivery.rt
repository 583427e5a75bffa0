ghost use Rattle.std.specs.Prelude.{◌≡◌, IsTrue, length, OnOk};
ghost use Rattle.or_actor.specs.Fits.{has_small_link, have_small_links};
ghost use Rattle.net_record.specs.World.{put, deliver};
ghost use Rattle.net_world.specs.Sound.{StaySound};

use crate::lanes::Lanes;
use net_record::Wiring;
use or_actor::{Outbox, Output};
use or_base::{NoMemory, Stamped};

/// Puts an item that keeps lanes sound on a lane, or on none.
#[tactic(auto, using(crate::proofs::Staying::staying))]
fn put(lanes: &mut Lanes, number: Option<u32>, item: Stamped) -> Result<(), NoMemory>
    requires { IsTrue (has_small_link item.item) }
    ensures ok { OnOk result (lanes.new ≡ put lanes.old number item) }
    ensures len { length lanes.new ≡ length lanes.old }
    ensures sound { StaySound item.stamp lanes.old lanes.new }
{
    lanes.put(number, item)?;
    Ok(())
}

/// Puts a writer's outputs on the lanes of their ports, in order, each with the stamp. The outbox is empty then.
#[tactic(auto, using(crate::proofs::Staying::staying))]
pub fn deliver(
    wiring: &Wiring,
    lanes: &mut Lanes,
    writer: u32,
    stamp: u64,
    out: &mut Outbox,
) -> Result<(), NoMemory>
    requires { IsTrue (have_small_links out.old) }
    ensures ok { OnOk result (lanes.new ≡ deliver wiring.now writer stamp lanes.old out.old) }
    ensures len { length lanes.new ≡ length lanes.old }
    ensures sound { StaySound stamp lanes.old lanes.new }
{
    while let Some(output) = out.take_first() {
        match output {
            Output::To { lane, item } => {
                let number = wiring.lane(writer, lane);
                put(lanes, number, Stamped { stamp, item })?;
            }
        }
    }
    Ok(())
}
