/// What a run has done weighs at most so much.
pub const MOST_WEIGHT: u64 = 1 << 30;
