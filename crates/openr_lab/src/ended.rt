ghost use Rattle.std.specs.Prelude.{◌≡◌, None};

use net_record::Record;

/// How a call of the program ended.
#[derive(Drop)]
pub struct Ended {
    /// 0 done, 2 wrong words, 3 no scenario, 4 unsettled, 5 running out of memory, 6 a read failed, 7 a write failed, 8 a
    /// given turn is bad. Unsettled is a run in which an item still waits after the last round of a settle, or that passed
    /// its budget.
    pub status: u8,
    /// The record of the run: at 0, at 4 of a run by round robin as far as it came, and at 7 after a finished run.
    pub run: Option<Record>,
}

/// An end without a record.
pub fn end_with(status: u8) -> Ended
    ensures status { result.status ≡ status }
    ensures run { result.run ≡ None }
{
    Ended { status, run: None }
}
