use net_record::Record;
use or_base::Bytes;

/// What the program answers to bytes that it has read.
#[derive(Drop)]
pub struct Answer {
    /// 0 done, 3 no scenario, 4 unsettled (an item still waits after the last round of a settle, or the run exceeded its
    /// budget), 8 a given turn is bad.
    pub status: u8,
    /// What is written.
    pub text: Bytes,
    /// The record of the run: at 0, and at 4 of a run by round robin as far as it came.
    pub run: Option<Record>,
}
