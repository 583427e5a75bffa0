ghost use Rattle.std.specs.Prelude.{◌≡◌, Some, None};
ghost use Rattle.std.specs.Option.{option_map};
ghost use Rattle.or_prefix.specs.Reading.{around_double, groups_beside, groups_in, v6_address};
ghost use Rattle.or_prefix.specs.Steps.{value_and_count_in, value_and_count};

use crate::groups::{Groups, join};
use crate::hex::read_group;
use crate::pieces::{cut, cut_double};

/// One to eight groups joined by colons.
#[tactic(auto, using(crate::proofs::GroupSteps::groups_after_all))]
fn read_groups(text: &[u8]) -> Option<Groups>
    ensures { option_map value_and_count result ≡ value_and_count_in (groups_in text.now) }
{
    let mut groups = Groups::none();
    let mut rest = text;
    while let Some((group, behind)) = cut(b':', rest) {
        groups = groups.with(read_group(group)?)?;
        rest = behind;
    }
    groups.with(read_group(rest)?)
}

/// The same, or no group where the text is empty.
fn read_groups_beside(text: &[u8]) -> Option<Groups>
    ensures { option_map value_and_count result ≡ value_and_count_in (groups_beside text.now) }
{
    if text.is_empty() {
        Some(Groups::none())
    } else {
        read_groups(text)
    }
}

/// Eight groups joined by colons.
#[tactic(auto, using(crate::proofs::Joins::v6_whole))]
fn read_whole(text: &[u8]) -> Option<u128>
    requires { around_double text.now ≡ None }
    ensures { result ≡ v6_address text.now }
{
    let groups = read_groups(text)?;
    if groups.count == 8 {
        Some(groups.bits)
    } else {
        None
    }
}

/// An IPv6 address without an embedded dotted part, as a number.
pub fn v6_address(text: &[u8]) -> Option<u128>
    ensures { result ≡ v6_address text.now }
{
    match cut_double(text) {
        Some((before, behind)) => {
            let before = read_groups_beside(before)?;
            let behind = read_groups_beside(behind)?;
            join(before, behind)
        }
        None => read_whole(text),
    }
}
