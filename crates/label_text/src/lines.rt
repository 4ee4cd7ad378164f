// The lines of a text, and what stands behind a key.
ghost use Rattle.std.specs.Prelude.{◌≡◌, ◌==◌, ◌∷◌, option_copied, position};
ghost use Rattle.std.specs.Option.{option_map};
ghost use Rattle.text.specs.Number.{number_of};
ghost use Rattle.label_text.specs.Label.{read_by};
ghost use Rattle.label_text.specs.Lines.{behind, lines, lines_left, past_blanks, value_in, value_of};
ghost use Rattle.label_text.specs.Seen.{seen};

use crate::fault::Fault;
use crate::key::Key;
use text::number;

fn line_end(text: &[u8]) -> Option<usize>
    ensures { result ≡ position (λ c. c == 10) text.now }
{
    text.iter().position(|byte| *byte == b'\n')
}

// The first line, and what stands behind its line feed.
fn split_line(text: &[u8]) -> (&[u8], Option<&[u8]>)
    ensures { lines text.now ≡ result.0.now ∷ lines_left (option_copied result.1) }
{
    match line_end(text) {
        Some(end) => (&text[..end], Some(&text[end + 1..])),
        None => (text, None),
    }
}

fn past_blanks(text: &[u8]) -> &[u8]
    ensures { result.now ≡ past_blanks text.now }
{
    let mut rest = text;
    while let [b' ' | b'\t', tail @ ..] = rest {
        rest = tail;
    }
    rest
}

fn behind<'a>(front: &[u8], line: &'a [u8]) -> Option<&'a [u8]>
    ensures { option_copied result ≡ behind front.now line.now }
{
    line.strip_prefix(front)
}

fn value_in(key: Key, line: &[u8]) -> Option<&[u8]>
    ensures { option_copied result ≡ value_in key line.now }
{
    Some(past_blanks(behind(key.front().as_bytes(), line)?))
}

// The value of the one line with the key.
pub(crate) fn value(key: Key, text: &[u8]) -> Result<&[u8], Fault>
    ensures { seen (λ value. value.now) result ≡ value_of key text.now }
{
    let mut found = None;
    let mut rest = Some(text);
    while let Some(text) = rest {
        let (line, more) = split_line(text);
        if let Some(value) = value_in(key, line) {
            if found.is_some() {
                return Err(Fault::Doubled(key));
            }
            found = Some(value);
        }
        rest = more;
    }
    found.ok_or(Fault::Missing(key))
}

// The number behind a key.
pub(crate) fn number_at(key: Key, text: &[u8]) -> Result<u32, Fault>
    ensures { result ≡ read_by number_of key text.now }
{
    number(value(key, text)?).ok_or(Fault::Malformed(key))
}
