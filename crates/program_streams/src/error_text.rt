//! Texts of errors, in parts.

ghost use Rattle.std.specs.Prelude.{◌≡◌, Some};
ghost use Rattle.byteorder.specs.Endian.{big_bytes};
ghost use Rattle.hex.specs.Hex.{encode_lower};
ghost use Rattle.program_streams.specs.ErrorText.{error_text_bytes};

use byteorder::{BigEndian, ByteOrder};
use std::{fmt, str};

/// An error's text, in parts that need no allocation.
#[derive(Clone, Copy, Debug)]
pub enum ErrorText {
    /// A text without a number.
    Plain(&'static str),
    /// A number in decimal, between two texts.
    Decimal(&'static str, u64, &'static str),
    /// A number in eight hex digits, after a text.
    Hex(&'static str, u32),
}

impl fmt::Display for ErrorText {
    ghost output = { λ text. Some (error_text_bytes text) };

    fn fmt<W: fmt::Write>(&self, f: &mut fmt::Formatter<W>) -> fmt::Result {
        match self {
            ErrorText::Plain(text) => write!(f, "{text}"),
            ErrorText::Decimal(before, number, after) => write!(f, "{before}{number}{after}"),
            ErrorText::Hex(before, number) => {
                let digits = hex_digits(*number);
                let shown = digits_text(&digits, *number);
                write!(f, "{before}{shown}")
            }
        }
    }
}

/// Returns the eight hexadecimal digits of a number, in lower case.
pub fn hex_digits(number: u32) -> [u8; 8]
    // `encode_lower bytes`: two hexadecimal digits for each byte.
    ensures { result ≡ encode_lower (big_bytes 4 number) }
{
    let mut bytes = [0u8; 4];
    BigEndian::write_u32(&mut bytes, number);
    let mut digits = [0u8; 8];
    // Four bytes have eight digits, so this never fails.
    let _ = hex::encode_to_slice(bytes.as_slice(), &mut digits);
    digits
}

/// Returns the eight hexadecimal digits of a number as a text. `digits` must be what [`hex_digits`]
/// returns for the number. `_number` is for the contract only.
fn digits_text<'a>(digits: &'a [u8; 8], _number: u32) -> &'a str
    requires { digits.now ≡ encode_lower (big_bytes 4 _number) }
    ensures { result.now ≡ encode_lower (big_bytes 4 _number) }
{
    match str::from_utf8(digits) {
        Ok(text) => text,
        // Hexadecimal digits are ASCII, and so valid UTF-8.
        Err(_) => unreachable!(),
    }
}
