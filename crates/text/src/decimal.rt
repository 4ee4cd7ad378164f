// Numbers in decimal digits.
ghost use Rattle.std.specs.Prelude.{◌≡◌, false, true, MatchOption};
ghost use Rattle.std.specs.Char.{is_ascii_digit};
ghost use Rattle.std.specs.List.{list_all};
ghost use Rattle.text.specs.Number.{number_of, wide_number_of};

use std::str;

fn all_digits(text: &[u8]) -> bool
    ensures { result ≡ list_all is_ascii_digit text.now }
{
    text.iter().all(|byte| byte.is_ascii_digit())
}

// The text, if it is digits alone.
fn digits(text: &[u8]) -> Option<&str>
    ensures { MatchOption result (list_all is_ascii_digit text.now ≡ false) (λ t. (t.now ≡ text.now) × (list_all is_ascii_digit text.now ≡ true)) }
{
    match str::from_utf8(text) {
        Ok(digits) if all_digits(text) => Some(digits),
        _ => None,
    }
}

/// The number that a text of one digit or more stands for, or none where it is another text, or the number has more than 32 bits.
#[tactic(auto, using(crate::proofs::Numbers::parsed))]
pub fn number(text: &[u8]) -> Option<u32>
    ensures { result ≡ number_of text.now }
{
    digits(text)?.parse::<u32>().ok()
}

/// The same of a number of at most 64 bits.
#[tactic(auto, using(crate::proofs::Numbers::parsed))]
pub fn wide_number(text: &[u8]) -> Option<usize>
    ensures { result ≡ wide_number_of text.now }
{
    digits(text)?.parse::<usize>().ok()
}
