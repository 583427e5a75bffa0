ghost use Rattle.std.specs.Prelude.{◌≡◌};
ghost use Rattle.or_prefix.specs.Reading.{pieces, v4_address};

use crate::decimal::read_octet;
use crate::pieces::cut;

/// An IPv4 address in dotted decimal, as a number.
#[tactic(auto, using(crate::proofs::Octets::v4_steps))]
pub fn v4_address(text: &[u8]) -> Option<u32>
    ensures { result ≡ v4_address (pieces 46 text.now) }
{
    let (first, rest) = cut(b'.', text)?;
    let (second, rest) = cut(b'.', rest)?;
    let (third, fourth) = cut(b'.', rest)?;
    let high = u32::from(read_octet(first)?) * 256 + u32::from(read_octet(second)?);
    let low = u32::from(read_octet(third)?) * 256 + u32::from(read_octet(fourth)?);
    Some(high * 65536 + low)
}
