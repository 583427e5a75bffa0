ghost use Rattle.std.specs.Prelude.{◌≡◌, IfOk};
ghost use Rattle.net_record.specs.Run.{schedule_of};

use crate::record::Record;
use net_laboratory::{Schedule, Turn};
use or_base::{NoMemory, Seq};
use std::alloc::Global;

/// The turns that were done, as they can be given again.
pub fn schedule_of(alloc: Global, done: &Record) -> Result<Schedule, NoMemory>
    ensures { IfOk result (λ schedule. schedule.turns ≡ schedule_of done.now.turns) }
{
    let mut turns = Vec::new(alloc);
    for turn in done.turns.as_slice() {
        turns.push(Turn {
            lane: turn.lane(),
            at: turn.at(),
        })?;
    }
    Ok(Schedule {
        turns: Seq::from_vec(turns),
    })
}
