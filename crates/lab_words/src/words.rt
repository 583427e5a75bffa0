/// The greatest number of workers.
pub const MOST_WORKERS: i64 = 64;

/// The least size of a laboratory that is made.
pub const LEAST_SIZE: i64 = 2;

/// The greatest size of one.
pub const MOST_SIZE: i64 = 8;

/// What the program does.
#[derive(Clone, Copy, Debug, PartialEq, Eq)]
pub enum Mode {
    /// Runs a scenario in one thread and reports.
    Replay,
    /// Runs a scenario on workers and reports.
    Live,
    /// Makes a large laboratory, runs it and writes a summary.
    Gen,
    /// Checks a printed trace.
    Check,
}

/// What the words ask for. An option that a mode doesn't use is read and not used.
#[derive(Clone, Copy, Debug, PartialEq, Eq)]
pub struct Words {
    pub mode: Mode,
    /// 1 to `MOST_WORKERS`.
    pub workers: u32,
    /// `LEAST_SIZE` to `MOST_SIZE`.
    pub size: u32,
    pub trace: bool,
}

/// Why no words were read.
#[derive(Clone, Copy, Debug, PartialEq, Eq)]
pub enum WordsFault {
    /// The words are wrong.
    Usage,
    /// Memory ran out.
    NoMemory,
}
