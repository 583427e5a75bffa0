//! Runs of a scenario by round robin or under given turns, in one thread.
//!
//! This layer does what net_record defines. A `World` is the state of a run: contracts see it as `WorldState`, and its
//! turns, issues and settles are exactly those of net_record's definitions. `round_robin` runs a scenario by rounds
//! and gives the record of what was done, or the number of the first phase that is unsettled. `replay` runs it under
//! the turns of a schedule, within the same budget, and gives the record, or the first turn that is bad, or the phase in
//! which the budget is exceeded. A world keeps that it is sound (`specs/Sound.antt`): its lanes and readers are there,
//! and each stamp and each clock is at most the turns and settles done. So every stamp fits, and beside these faults
//! only running out of memory ends a run early. It keeps the weight of what was done beside it, the map of each
//! writer's ports (net_record's `Wiring`) and the lanes on which an item waits (`specs/Busy.antt`), so that the time of
//! a turn grows with none of them.
//!
//! The files: `lane` and `lanes` (the items that wait), `delivery` (outputs on lanes), `acting` (a turn of one actor),
//! `clocks`, `answers` (those of a phase), `start`, `world`, `scenario` (what its type
//! keeps), `rounds`, `given`, and `fault`.
#![tactic(auto)]

mod acting;
mod answers;
mod clocks;
mod delivery;
mod fault;
mod given;
mod lane;
mod lanes;
mod rounds;
mod scenario;
mod start;
mod world;

pub use fault::{ReplayFault, RunFault};
pub use given::replay;
pub use rounds::round_robin;
