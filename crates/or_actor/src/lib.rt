//! What a module is: an event loop that takes one item at a time and sends items.
//!
//! A module owns its state, and nobody else touches it. Its meaning is a plain state and a step, a function of the
//! state, the lane that the item came from, the item and the journal's length that a desk found: it gives the next state
//! and what is sent, in order (`Module`). What a turn sends goes into an `Outbox`, which contracts see as the list of
//! outputs. A module names its outgoing lanes by ports (`ports`), so that it knows nothing of the lanes' numbers. A module
//! that needs the links of its node is given their ends (`LinkEnd`).
//!
//! A turn may be done where `fits` says so: every link that the item names has a small number. What a turn sends keeps
//! that condition, so a run that begins with such items never meets another. `specs/Steps.antt` says what every run is
//! told by: a turn that was made with its stamp, the state after turns, and what they took from a lane.
#![tactic(auto)]

mod fits;
mod link_end;
mod module;
mod outbox;
mod output;
mod ports;

pub use fits::{LINK_NUMBER_END, has_small_link};
pub use link_end::LinkEnd;
pub use module::Module;
pub use outbox::Outbox;
pub use output::Output;
pub use ports::{
    DECISION_PORT, DESK_PORT, END_B_PORTS, FIB_PORT, FIRST_LINK_PORT, LINK_MONITOR_PORT,
    PREFIX_MANAGER_PORT, SPARK_PORT, STORE_PORT,
};
