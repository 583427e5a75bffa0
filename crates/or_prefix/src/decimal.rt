ghost use Rattle.std.specs.Prelude.{◌≡◌, ◌≤◌, ◌<◌, length, true, Some, None, if◌then◌else◌};
ghost use Rattle.std.specs.List.{list_all};
ghost use Rattle.or_prefix.specs.Reading.{is_digit, begins_with_zero, is_short_decimal, decimal_value, is_octet};

/// The byte is a decimal digit.
pub fn is_digit(b: u8) -> bool
    ensures { result ≡ is_digit b }
{
    48 <= b && b <= 57
}

/// Each byte is a decimal digit.
fn has_digits(text: &[u8]) -> bool
    ensures { result ≡ list_all is_digit text.now }
{
    text.iter().all(|&b| is_digit(b))
}

fn begins_with_zero(text: &[u8]) -> bool
    ensures { result ≡ begins_with_zero text.now }
{
    match text.first() {
        Some(&b) => b == b'0',
        None => false,
    }
}

/// The text is one to three decimal digits without a leading zero.
fn is_short_decimal(text: &[u8]) -> bool
    ensures { result ≡ is_short_decimal text.now }
{
    1 <= text.len()
        && text.len() <= 3
        && has_digits(text)
        && (text.len() == 1 || !begins_with_zero(text))
}

/// The number that up to three decimal digits make.
#[tactic(auto, using(crate::proofs::Numerals::decimal_steps))]
fn decimal_value(digits: &[u8]) -> u16
    requires digits { list_all is_digit digits.now ≡ true }
    requires few { length digits.now ≤ 3 }
    ensures { result ≡ decimal_value digits.now }
{
    let mut value = 0;
    for &digit in digits {
        value = 10 * value + u16::from(digit - b'0');
    }
    value
}

/// The number that one to three decimal digits without a leading zero make. None where the text isn't that.
pub fn read_short_decimal(text: &[u8]) -> Option<u16>
    ensures { result ≡ (if is_short_decimal text.now then Some (decimal_value text.now) else None) }
{
    if is_short_decimal(text) {
        Some(decimal_value(text))
    } else {
        None
    }
}

/// A number of an IPv4 address: at most 255, in decimal without a leading zero.
pub fn read_octet(text: &[u8]) -> Option<u8>
    ensures { result ≡ (if is_octet text.now then Some (decimal_value text.now) else None) }
{
    let value = read_short_decimal(text)?;
    if value <= 255 {
        Some(value as u8)
    } else {
        None
    }
}
