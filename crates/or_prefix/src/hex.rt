ghost use Rattle.std.specs.Prelude.{◌≡◌, ◌≤◌, ◌<◌, length, true, Some, None, if◌then◌else◌};
ghost use Rattle.std.specs.List.{list_all};
ghost use Rattle.or_prefix.specs.Reading.{is_hex_digit, hex_digit_value, is_group, group_value};

use crate::decimal::is_digit;

/// The byte is a hexadecimal digit of either case.
fn is_hex_digit(b: u8) -> bool
    ensures { result ≡ is_hex_digit b }
{
    is_digit(b) || (65 <= b && b <= 70) || (97 <= b && b <= 102)
}

/// The number of a hexadecimal digit.
fn hex_digit_value(digit: u8) -> u8
    requires { is_hex_digit digit ≡ true }
    ensures value { result ≡ hex_digit_value digit }
    ensures below { result < 16 }
{
    if digit <= b'9' {
        digit - b'0'
    } else if digit <= b'F' {
        digit - b'A' + 10
    } else {
        digit - b'a' + 10
    }
}

fn has_hex_digits(text: &[u8]) -> bool
    ensures { result ≡ list_all is_hex_digit text.now }
{
    text.iter().all(|&b| is_hex_digit(b))
}

/// The text is one to four hexadecimal digits.
fn is_group(text: &[u8]) -> bool
    ensures { result ≡ is_group text.now }
{
    1 <= text.len() && text.len() <= 4 && has_hex_digits(text)
}

/// The number that up to four hexadecimal digits make.
#[tactic(auto, using(crate::proofs::Numerals::group_steps))]
fn group_value(digits: &[u8]) -> u16
    requires digits { list_all is_hex_digit digits.now ≡ true }
    requires few { length digits.now ≤ 4 }
    ensures { result ≡ group_value digits.now }
{
    let mut value = 0;
    for &digit in digits {
        value = 16 * value + u16::from(hex_digit_value(digit));
    }
    value
}

/// A group of an IPv6 address: one to four hexadecimal digits. None where the text isn't that.
pub fn read_group(text: &[u8]) -> Option<u16>
    ensures { result ≡ (if is_group text.now then Some (group_value text.now) else None) }
{
    if is_group(text) {
        Some(group_value(text))
    } else {
        None
    }
}
