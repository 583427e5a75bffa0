//! Spark finds the neighbours of a node, holds them and loses them.
//!
//! On each link that is up Spark says hello at each tick, and which node it hears there. Two nodes that hear each other
//! shake hands, and from then on LinkMonitor is told of the neighbour. A neighbour is lost where its link goes down,
//! where it says that it doesn't hear this node, or where it isn't heard for too long. One that says that it restarts is
//! kept for a while, and LinkMonitor is told nothing.
//!
//! The states of a neighbour are those of spark_fsm. A turn is one table: what each item makes of each link, and what is
//! sent, in order (`link_turn` of `specs/Spark.antt`); `SparkModule` does exactly that. Timers run by the last moment that
//! a tick told.
//!
//! The files: `neighbour` (what is kept of a neighbour), `sending` (what is sent), `events` (what becomes of a
//! neighbour), `link` (a turn for one link), `spark` (the module).
#![tactic(auto)]

mod events;
mod link;
mod neighbour;
mod sending;
mod spark;

pub use spark::SparkModule;
