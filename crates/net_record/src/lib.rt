//! What a run of a scenario is, and the record of one.
//!
//! A laboratory is actors joined by lanes. `specs/Roles.antt` numbers the actors, `specs/Wires.antt` the lanes: a lane
//! joins a writer to a reader wherever the one has items for the other. `specs/World.antt` says what one turn does:
//! the reader of a lane takes the front item, and what it sends is put on the lanes of its ports. A run is turns, one
//! after another (`specs/Run.antt`); phases begin with the driver's items (`specs/Phases.antt`) and end at the first
//! moment when no item waits. Round robin is the schedule that rounds give (`specs/Rounds.antt`), and
//! `rounds_are_a_run` promises that it is a run like any other.
//!
//! All that depends on which modules there are stands here, and nothing above this layer names a single module: `role` and
//! `numbering` (what the actors are), `kinds` (the modules), `part` (what an actor is: the driver, a desk or a module),
//! `actor`, `desk` (answers questions), `wire`, `wiring` and `ports` (the lanes, and which of them a sender's port names),
//! `phase` and `phasing` (what each command sends), `answers` and `questions` (which desks a phase asks, and for what),
//! `record` (what was done), `schedule` (which turns) and `stores` (what a record tells of the stores). `stamps`, `weight` and `budget` say when each
//! entry was made and how much a run may do.
#![tactic(auto)]

ghost use Rattle.net_record.specs.Run.{RoundsAreARun};
ghost use Rattle.net_record.specs.Given.{GivenIsARun, RoundsAreGiven, GivenAreDone, RoundsAreReached, GivenIsReached};
ghost use Rattle.net_record.specs.Ends.{SettledRoundsEndDrained, GivenEndsDrained};
ghost use Rattle.net_record.specs.Tells.{RunsTell};

mod actor;
mod answers;
mod budget;
mod desk;
mod kinds;
mod numbering;
mod part;
mod phase;
mod phasing;
mod ports;
mod questions;
mod record;
mod role;
mod schedule;
mod stamps;
mod stores;
mod weight;
mod wire;
mod wiring;

pub use actor::ActorState;
pub use answers::desks_asked;
pub use budget::MOST_WEIGHT;
pub use desk::{Desk, Question, View};
pub use kinds::AnyModule;
pub use numbering::{link_number, module_number, roles};
pub use part::Part;
pub use phase::Phase;
pub use phasing::{phases, shows_routes};
pub use ports::{Port, Wiring};
pub use questions::{answer_of, is_in_range, is_question, longest, made_for};
pub use record::{AnswerDone, NodeMark, Record, SettleDone};
pub use role::{NodeModule, NodeSetup, Role};
pub use schedule::schedule_of;
pub use stamps::Stamps;
pub use stores::{journals_of, nodes_told};
pub use weight::{
    BARE_ITEM_WEIGHT, BARE_KEY_WEIGHT, BARE_ROUTE_WEIGHT, HOP_WEIGHT, NAME_WEIGHT, PREFIX_WEIGHT,
    add_item, add_settle,
};
pub use wire::Wire;
pub use wiring::wires;

/// Where round robin settles every phase of a laboratory, its world is that of the run under the schedule of its own
/// turns.
pub fn rounds_are_a_run()
    ensures { RoundsAreARun }
{}

/// A run under given turns is the run of the same turns without a budget, where the budget isn't exceeded: it settles every
/// phase just there, and the turn that is bad is the same.
pub fn given_is_a_run()
    ensures { GivenIsARun }
{}

/// Where round robin settles every phase of a laboratory, it ends as the run under the turns that it did.
pub fn rounds_are_given()
    ensures { RoundsAreGiven }
{}

/// Where a run under given turns settles every phase, it did just these turns.
pub fn given_are_done()
    ensures { GivenAreDone }
{}

/// Where round robin settles every phase of a laboratory, no item waits at its end, and each phase has its settle.
pub fn settled_rounds_end_drained()
    ensures { SettledRoundsEndDrained }
{}

/// So it is where a run under given turns settles every phase.
pub fn given_ends_drained()
    ensures { GivenEndsDrained }
{}

/// Round robin comes to a record of a run, whether it settles every phase or not.
pub fn rounds_are_reached()
    ensures { RoundsAreReached }
{}

/// So does a run under given turns.
pub fn given_is_reached()
    ensures { GivenIsReached }
{}

/// In every record of a run, under any legal schedule: each settle tells what was there, and the entries that it tells of are
/// the first of the journals that the record has; and no two full syncs of one store that settles tell of as finished have
/// the same number.
pub fn runs_tell()
    ensures { RunsTell }
{}
