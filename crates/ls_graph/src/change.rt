use crate::arc::Arc;

/// What changes of a link in one direction: the metric with which it is usable before, and after; None where it isn't.
#[derive(Clone, Drop)]
pub struct LinkChange {
    /// With the metric after the change, or that before it where there is none after.
    pub arc: Arc,
    pub old: Option<u32>,
    pub new: Option<u32>,
}
