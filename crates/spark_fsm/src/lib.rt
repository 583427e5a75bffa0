//! The states of a neighbour as Spark sees it, and what leads from one to another.
//!
//! A neighbour is Idle where nothing was heard of it, Warm once it was heard, in Negotiate once it hears this node too,
//! and Established once both shook hands. One that says that it restarts is kept in Restart for a while. What an event
//! makes of a state is one table (`specs/Next.antt`), and `next` is that table.
#![tactic(auto)]

mod event;
mod state;
mod transitions;

pub use event::Event;
pub use state::State;
pub use transitions::next;
