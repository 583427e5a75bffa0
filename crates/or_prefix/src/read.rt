ghost use Rattle.std.specs.Prelude.{◌≡◌, Some, IfOk, IfSome};
ghost use Rattle.std.specs.Option.{option_map};
ghost use Rattle.or_prefix.specs.Reading.{address_of, fault_of, address_and_length_of, has_colon, prefix_of};
ghost use Rattle.or_prefix.specs.Steps.{fault_in, prefix_in, address_and_length_as};

use crate::address::Address;
use crate::decimal::read_short_decimal;
use crate::fault::PrefixFault;
use crate::pieces::cut;
use crate::v4::v4_address;
use crate::v6::v6_address;
use or_base::Prefix;

fn has_colon(text: &[u8]) -> bool
    ensures { result ≡ has_colon text.now }
{
    text.iter().any(|&b| b == b':')
}

/// An address: with a colon it is an IPv6 address.
fn read_address(text: &[u8]) -> Option<Address>
    ensures bits { option_map (λ a. a.bits) result ≡ address_of text.now }
    ensures v6 { IfSome result (λ a. a.v6 ≡ has_colon text.now) }
{
    if has_colon(text) {
        let bits = v6_address(text)?;
        Some(Address { v6: true, bits })
    } else {
        let bits = u128::from(v4_address(text)?);
        Some(Address { v6: false, bits })
    }
}

/// The address and the length that a text says. None where it hasn't the form of a prefix.
#[tactic(auto, unfolding(crate::specs::Reading::address_and_length_of), using(crate::proofs::Octets::two_parts))]
fn address_and_length_of(text: &[u8]) -> Option<(Address, u16)>
    ensures { option_map address_and_length_as result ≡ address_and_length_of text.now }
{
    let (address, len) = cut(b'/', text)?;
    let len = read_short_decimal(len)?;
    let address = read_address(address)?;
    Some((address, len))
}

/// The prefix that a text says: an address, `/` and a length. It takes no memory.
#[tactic(auto, unfolding(crate::specs::Reading::prefix_of), using(crate::proofs::Lengths::long_is_none))]
pub fn read_prefix(text: &[u8]) -> Result<Prefix, PrefixFault>
    ensures prefix { prefix_in result ≡ prefix_of text.now }
    ensures fault { fault_in result ≡ fault_of (address_and_length_of text.now) }
    ensures ok { IfOk result (λ p. address_and_length_of text.now ≡ Some (record { v6 = p.v6; bits = p.bits; len = p.len })) }
{
    let Some((address, len)) = address_and_length_of(text) else {
        return Err(PrefixFault::BadForm);
    };
    let width = if address.v6 { 128 } else { 32 };
    if width < len {
        return Err(PrefixFault::BadLength);
    }
    match Prefix::new(address.v6, address.bits, len as u8) {
        Some(prefix) => Ok(prefix),
        None => Err(PrefixFault::HostBits),
    }
}
