//! Numbers in a text.

ghost use Rattle.std.specs.Prelude.{◌≡◌, ◌<◌, ◌≤◌, IfSome, length};
ghost use Rattle.sock_diag_filters.specs.Numbers.{digit_value, digits_in, index_of, number_in};
ghost use Rattle.sock_diag_filters.specs.Numbers.{with_digit};

/// Returns the index of the first byte that is equal to `byte`, or `None` if there is none.
pub fn index_of(byte: u8, text: &[u8]) -> Option<usize>
    ensures value { result ≡ index_of byte text.now }
    // So the text can be split before and after this byte.
    ensures bound { IfSome result (λ index. index < length text.now) }
{
    text.iter().position(|&other| other == byte)
}

/// Parses a number that is at most `most`: in decimal without a zero before other digits, or in
/// hexadecimal after `0x`. Returns `None` for any other text.
pub(crate) fn number_in(most: u64, text: &[u8]) -> Option<u64>
    ensures value { result ≡ number_in most text.now }
    ensures bound { IfSome result (λ number. number ≤ most) }
{
    if text.starts_with(b"0x") {
        digits_in(16, most, &text[2..])
    } else if text.len() > 1 && text.starts_with(b"0") {
        None
    } else {
        digits_in(10, most, text)
    }
}

/// Parses the digits of a number that is at most `most`. Returns `None` if there are no digits, if
/// a byte is not a digit, or if the number is greater.
fn digits_in(radix: u32, most: u64, digits: &[u8]) -> Option<u64>
    requires { radix ≤ 16 }
    ensures value { result ≡ digits_in radix most digits.now }
    ensures bound { IfSome result (λ number. number ≤ most) }
{
    if digits.is_empty() {
        return None;
    }
    let mut number = 0u64;
    for &digit in digits {
        number = with_digit(radix, most, number, digit)?;
    }
    Some(number)
}

/// Returns the number with a digit appended. Returns `None` if the byte is not a digit, or if the
/// result is greater than `most`.
fn with_digit(radix: u32, most: u64, number: u64, digit: u8) -> Option<u64>
    requires { radix ≤ 16 }
    ensures value { result ≡ with_digit radix most number digit }
    ensures bound { IfSome result (λ number. number ≤ most) }
{
    let value = digit_value(digit);
    if value >= radix {
        return None;
    }
    let longer = u128::from(number) * u128::from(radix) + u128::from(value);
    if longer > u128::from(most) {
        None
    } else {
        Some(longer as u64)
    }
}

/// Returns the value of a hexadecimal digit, or 16 for any other byte.
fn digit_value(digit: u8) -> u32
    ensures { result ≡ digit_value digit }
{
    match digit {
        b'0'..=b'9' => u32::from(digit - b'0'),
        b'a'..=b'f' => u32::from(digit - b'a') + 10,
        b'A'..=b'F' => u32::from(digit - b'A') + 10,
        _ => 16,
    }
}
