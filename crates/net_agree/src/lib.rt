//! What holds of the stores of a run, under any legal schedule.
//!
//! A run comes to worlds (`specs/Reached.antt`), by the legal turns of its phases and by their settles. In each of them
//! every item waits for an actor that may take it, and stores know and Sparks hear who their peers are
//! (`runs_are_routed`); ticks never go back (`runs_are_timed`); and numbers of sessions stay small (`runs_are_counted`).
//! So every two stores that a link joins are paired, with all that is on its way between them (`runs_are_paired`,
//! `specs/Lifted.antt`), and at each settle the stores of a joined part agree (`runs_agree`, `specs/Settled.antt`). The
//! record of a run alone tells which these are (`records_agree`, `specs/Recorded.antt`).
//!
//! The crate has laws only, and no code.
#![tactic(auto)]

ghost use Rattle.net_agree.specs.Counted.{RunsAreCounted};
ghost use Rattle.net_agree.specs.Lifted.{RunsArePaired};
ghost use Rattle.net_agree.specs.Recorded.{RecordsAgree};
ghost use Rattle.net_agree.specs.Routed.{RunsAreRouted};
ghost use Rattle.net_agree.specs.Settled.{RunsAgree};
ghost use Rattle.net_agree.specs.Timed.{RunsAreTimed};

/// In every run each item waits for an actor that may take it, and the peers that stores know and Sparks hear are at the
/// other ends of their links.
pub fn runs_are_routed()
    ensures { RunsAreRouted }
{}

/// In every run ticks never go back, nor behind the moment of a store.
pub fn runs_are_timed()
    ensures { RunsAreTimed }
{}

/// In every run a store has no more peers than turns were done, and gave no more numbers to sessions than the square of that.
pub fn runs_are_counted()
    ensures { RunsAreCounted }
{}

/// In every run that is shorter than 2^31 turns every two stores that a link joins are paired, whatever its links lose,
/// repeat and hold back.
pub fn runs_are_paired()
    ensures { RunsArePaired }
{}

/// At every settle of every such run the stores of each joined part agree, and so do two stores after one round, unless
/// two of their values collide in their hash.
pub fn runs_agree()
    ensures { RunsAgree }
{}

/// In every record of a run, whether it settled every phase or not, the stores of each joined part agree at each settle, and
/// so do two stores after one round, unless two of their values collide in their hash.
pub fn records_agree()
    ensures { RecordsAgree }
{}
