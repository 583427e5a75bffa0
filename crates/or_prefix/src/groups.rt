ghost use Rattle.std.specs.Prelude.{◌≡◌, ◌+◌, ◌-◌, ◌*◌, ◌^◌, ◌≤◌, ◌<◌, nat_le, Some, None, MatchOption, if◌then◌else◌};

/// Groups of an IPv6 address in a row, at most eight.
#[derive(Clone, Copy)]
pub struct Groups {
    /// The number that they make, with the first group highest.
    pub bits: u128,
    /// How many they are.
    pub count: u32,
    ghost few: { count ≤ 8 },
    ghost within: { bits < 65536 ^ count },
}

impl Groups {
    pub fn none() -> Groups
        ensures bits { result.bits ≡ 0 }
        ensures count { result.count ≡ 0 }
    {
        Groups { bits: 0, count: 0 }
    }

    /// These groups and one behind them. None where these are eight.
    #[tactic(auto, using(crate::proofs::GroupSteps::room_for_group))]
    pub fn with(self, group: u16) -> Option<Groups>
        ensures { MatchOption result (8 ≤ self.count)
            (λ more. (self.count < 8) × (more.bits ≡ 65536 * self.bits + group) × (more.count ≡ self.count + 1)) }
    {
        if self.count < 8 {
            Some(Groups {
                bits: 65536 * self.bits + u128::from(group),
                count: self.count + 1,
            })
        } else {
            None
        }
    }
}

/// The address whose groups stand around `::`, which stands for one or more groups of 0. None where that makes more
/// than eight groups.
#[tactic(auto, using(crate::proofs::Shifts::shift_steps))]
pub fn join(before: Groups, behind: Groups) -> Option<u128>
    ensures { result ≡ (if nat_le (before.count + behind.count) 7
        then Some (before.bits * 65536 ^ (8 - before.count) + behind.bits) else None) }
{
    if 7 < before.count + behind.count {
        return None;
    }
    // Without a group before, the shift would be by all 128 bits.
    let high = if before.count == 0 {
        0
    } else {
        before.bits << (16 * (8 - before.count))
    };
    Some(high + behind.bits)
}
