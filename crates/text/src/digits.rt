// Bytes in hexadecimal.
ghost use Rattle.std.specs.Prelude.{◌≡◌, ◌<◌, Some};
ghost use Rattle.text.specs.Hex.{byte_of, digit_of, digit_value, hex_of};

use std::fmt;

fn digit(n: u8) -> char
    requires { n < 16 }
    ensures value { result ≡ digit_of n }
    ensures ascii { result < 128 }
{
    char::from_digit(u32::from(n), 16).unwrap()
}

/// Prints two digits for each byte, the upper half first, in small letters.
#[derive(Clone, Copy)]
pub struct Digits<'a>(pub &'a [u8]);

impl fmt::Display for Digits<'_> {
    ghost output = { λ bytes. Some (hex_of bytes.0.now) };

    fn fmt<W: fmt::Write>(&self, f: &mut fmt::Formatter<W>) -> fmt::Result {
        for byte in self.0 {
            write!(f, "{}{}", digit(byte / 16), digit(byte % 16))?;
        }
        Ok(())
    }
}

fn digit_value(c: u8) -> Option<u8>
    ensures { result ≡ digit_value c }
{
    char::from(c).to_digit(16).map(|value| value as u8)
}

// The byte of two digits.
pub(crate) fn byte_of(high: u8, low: u8) -> Option<u8>
    ensures { result ≡ byte_of high low }
{
    Some(digit_value(high)? * 16 + digit_value(low)?)
}
