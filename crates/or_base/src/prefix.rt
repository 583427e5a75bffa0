ghost use Rattle.std.specs.Prelude.{◌≡◌, ◌%◌, ◌^◌, ◌==◌, IsTrue, IfSome, is_some};
ghost use Rattle.or_base.specs.Prefix.{is_prefix};

use crate::memory::{Copied, NoMemory};
use std::cmp::Ordering;

/// An IP prefix. Prefixes are ordered by family, IPv4 first, then by address, then by length. Its length is at most 32 or 128; `bits` is the address as a number, below
/// 2^32 for IPv4; no bit past the length is set (RFC 4291 for IPv6).
#[derive(Clone, Copy, Debug, PartialEq, Eq)]
pub struct Prefix {
    pub v6: bool,
    pub bits: u128,
    pub len: u8,
    pub ghost sound: { IsTrue (is_prefix v6 bits len) },
}

impl Prefix {
    ghost use Rattle.or_base.specs.Prefixes.{prefix_from, is_same_prefix};

    /// The prefix, or None exactly where these are no prefix. It takes no memory.
    #[tactic(auto, using(crate::proofs::Prefixes::prefix_from_parts, crate::proofs::Prefixes::prefix_from_none))]
    pub fn new(v6: bool, bits: u128, len: u8) -> Option<Prefix>
        ensures prefix { result ≡ prefix_from v6 bits len }
        ensures exactly { is_some result ≡ is_prefix v6 bits len }
        ensures v6 { IfSome result (λ p. p.v6 ≡ v6) }
        ensures bits { IfSome result (λ p. p.bits ≡ bits) }
        ensures len { IfSome result (λ p. p.len ≡ len) }
    {
        if is_prefix(v6, bits, len) {
            Some(Prefix { v6, bits, len })
        } else {
            None
        }
    }

    /// The two are the same.
    pub fn is_same_prefix(&self, other: &Prefix) -> bool
        ensures { result ≡ is_same_prefix self.now other.now }
    {
        self == other
    }

    /// An equal prefix. It takes no memory, and never fails.
    pub fn copied(&self) -> Result<Self, NoMemory>
        ensures { result ≡ Ok self.now }
    {
        Ok(*self)
    }
}

impl PartialOrd for Prefix {
    ghost use Rattle.std.proofs.Common.{rules};
    ghost use Rattle.std.specs.Cmp.{partial_order_from_own_ties};
    ghost use Rattle.std.specs.Cmp.Rules.{comparing};
    ghost use Rattle.std.specs.Ordering.{as_partial_cmp};
    ghost use Rattle.or_base.specs.Prefixes.{prefix_cmp};

    ghost partial_cmp = { as_partial_cmp prefix_cmp };

    ghost laws = { partial_order_from_own_ties (Prim.search (comparing, rules)) (Prim.search (comparing, rules)) };

    fn partial_cmp(&self, other: &Prefix) -> Option<Ordering> {
        Some(self.cmp(other))
    }
}

impl Ord for Prefix {
    ghost use Rattle.std.proofs.Common.{rules};
    ghost use Rattle.std.specs.Cmp.Rules.{comparing};
    ghost use Rattle.or_base.specs.Prefixes.{prefix_cmp};

    ghost cmp = { prefix_cmp };

    ghost total = { Prim.search (comparing, rules) };

    ghost matches_partial_cmp = { Prim.search (comparing, rules) };

    ghost matches_eq = { Prim.search (comparing, rules) };

    fn cmp(&self, other: &Prefix) -> Ordering {
        self.v6
            .cmp(&other.v6)
            .then_with(|| self.bits.cmp(&other.bits))
            .then_with(|| self.len.cmp(&other.len))
    }
}

impl Copied for Prefix {
    fn copied(&self) -> Result<Self, NoMemory> {
        Prefix::copied(self)
    }
}

/// These are a prefix: the length and the number are within the address, and no bit past the length is set.
fn is_prefix(v6: bool, bits: u128, len: u8) -> bool
    ensures { result ≡ is_prefix v6 bits len }
{
    if v6 {
        len <= 128 && ends_with_zeros(bits, 128 - len)
    } else {
        len <= 32 && bits <= u128::from(u32::MAX) && ends_with_zeros(bits, 32 - len)
    }
}

/// The last `count` bits are 0.
#[tactic(auto, using(crate::proofs::Remainders::remainder_of_all))]
fn ends_with_zeros(bits: u128, count: u8) -> bool
    ensures { result ≡ (bits % 2 ^ count == 0) }
{
    if 128 <= count {
        bits == 0
    } else {
        bits % (1 << count) == 0
    }
}
