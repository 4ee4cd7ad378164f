// A text of pairs of hexadecimal digits.
ghost use Rattle.std.specs.Prelude.{◌≡◌, true, is_some};
ghost use Rattle.text.specs.Hex.{unhex_of};

use crate::digits::byte_of;

/// Pairs of hexadecimal digits, each of which stands for a byte.
#[derive(Clone, Copy, PartialEq, Eq, Debug)]
pub struct HexText<'a> {
    text: &'a [u8],
    ghost paired: { is_some (unhex_of text.now) ≡ true },
}

impl<'a> HexText<'a> {
    ghost use Rattle.std.specs.Prelude.{◌≡◌, IfSome, Some};
    ghost use Rattle.std.specs.Option.{option_map};
    ghost use Rattle.text.specs.Hex.{unhex_of};
    ghost use Rattle.text.specs.HexText.{bytes_told, text_told};

    /// The text, if it is pairs of digits.
    pub fn new(text: &'a [u8]) -> Option<HexText<'a>>
        ensures bytes { option_map bytes_told result ≡ unhex_of text.now }
        ensures text { IfSome result (λ t. text_told t ≡ text.now) }
    {
        let mut rest = text;
        while let [high, low, tail @ ..] = rest {
            byte_of(*high, *low)?;
            rest = tail;
        }
        match rest {
            [] => Some(HexText { text }),
            _ => None,
        }
    }

    /// The digits.
    pub fn text(&self) -> &'a [u8]
        ensures text { result.now ≡ text_told self.now }
        ensures bytes { unhex_of result.now ≡ Some (bytes_told self.now) }
    {
        self.text
    }
}
