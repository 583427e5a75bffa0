use or_actor::Output;
use or_base::Seq;

/// What the driver sends as a phase begins, by its ports (an actor's number is the driver's port for it), how many rounds
/// the phase may have, the moment that its settle tells, in milliseconds (that of the last tick so far, or 0), and whether
/// its settle tells of routes.
#[derive(Drop)]
pub struct Phase {
    pub issues: Seq<Output>,
    pub rounds: u64,
    pub moment: u64,
    pub shows_routes: bool,
}
