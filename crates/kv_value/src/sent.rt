ghost use Rattle.std.specs.Prelude.{◌≡◌};
ghost use Rattle.kv_value.specs.Sending.{sent_ttl};

/// The lifetime with which a value is sent.
#[derive(Clone, Copy, Debug, PartialEq, Eq)]
pub enum Sent {
    /// It has no end.
    Forever,
    /// So many milliseconds, at least 1.
    Left(u64),
    /// It isn't sent, since at most 1 millisecond is left.
    Withheld,
}

/// The lifetime with which a value is sent at the moment `now`, where it was merged with the lifetime `ttl` at another:
/// what is left, less 1 millisecond. All are in milliseconds. It takes no memory.
#[tactic(auto, unfolding(crate::specs::Sending::sent_ttl))]
pub fn sent_ttl(ttl: Option<u64>, merged_at: u64, now: u64) -> Sent
    ensures { result ≡ sent_ttl ttl merged_at now }
{
    match ttl {
        None => Sent::Forever,
        Some(ttl) => {
            // The deadline can be past the range of u64.
            let deadline = u128::from(merged_at) + u128::from(ttl);
            let left = deadline.saturating_sub(u128::from(now));
            if left <= 1 {
                Sent::Withheld
            } else {
                Sent::Left((left - 1).min(u128::from(u64::MAX)) as u64)
            }
        }
    }
}
