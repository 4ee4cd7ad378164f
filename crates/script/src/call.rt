// The lines of a script.
ghost use Rattle.std.specs.Prelude.{◌≡◌};
ghost use Rattle.std.specs.Option.{option_map};
ghost use Rattle.script.specs.Call.{asked, path_told};
ghost use Rattle.script.specs.Line.{call_of, line_number, list_of, path_of, read_of, rest_of, whole_of, word_of};

use crate::name::Name;
use text::{HexText, wide_number};

/// A path as a script spells it.
#[derive(Clone, Copy, PartialEq, Eq, Debug)]
pub enum PathWord<'a> {
    /// The bytes of the text.
    Plain(&'a [u8]),
    /// Pairs of hexadecimal digits.
    Hex(HexText<'a>),
}

/// Handles are told by the number of their accepted open, counted from 0.
#[derive(Clone, Copy, PartialEq, Eq, Debug)]
pub enum Call<'a> {
    Begin,
    Open {
        path: PathWord<'a>,
    },
    Read {
        handle: usize,
        offset: usize,
        length: usize,
    },
    Whole {
        handle: usize,
        length: usize,
    },
    List {
        index: usize,
        length: usize,
        path: PathWord<'a>,
    },
    Close {
        handle: usize,
    },
}

// The text up to the first space, and what follows it.
fn first_word(text: &str) -> (&str, &str)
    ensures word { result.0.now ≡ word_of text.now }
    ensures rest { result.1.now ≡ rest_of text.now }
{
    text.split_once(' ').unwrap_or((text, ""))
}

impl<'a> PathWord<'a> {
    // A text that begins with `=` is hexadecimal, and no path if it is not pairs of digits.
    fn parse(text: &'a [u8]) -> Option<PathWord<'a>>
        ensures { option_map path_told result ≡ path_of text.now }
    {
        match text {
            [b'=', digits @ ..] => HexText::new(digits).map(PathWord::Hex),
            _ => Some(PathWord::Plain(text)),
        }
    }
}

impl<'a> Call<'a> {
    /// The call that a line asks for, if it asks for one.
    #[tactic(auto, unfolding(crate::specs::Line::call_of))]
    pub fn parse(line: &'a str) -> Option<Call<'a>>
        ensures { option_map asked result ≡ call_of line.now }
    {
        let (name, rest) = first_word(line);
        match Name::of(name.as_bytes())? {
            Name::Begin => rest.is_empty().then_some(Call::Begin),
            Name::Open => Some(Call::Open {
                path: PathWord::parse(rest.as_bytes())?,
            }),
            Name::Read => parse_read(rest),
            Name::Whole => parse_whole(rest),
            Name::List => parse_list(rest),
            Name::Close => Some(Call::Close {
                handle: wide_number(rest.as_bytes())?,
            }),
        }
    }
}

// A number, and what follows it.
fn number(text: &str) -> Option<(usize, &str)>
    ensures { option_map (λ found. (found.0, found.1.now)) result ≡ line_number text.now }
{
    let (word, rest) = first_word(text);
    Some((wide_number(word.as_bytes())?, rest))
}

fn parse_read(text: &str) -> Option<Call<'_>>
    ensures { option_map asked result ≡ read_of text.now }
{
    let (handle, rest) = number(text)?;
    let (offset, rest) = number(rest)?;
    Some(Call::Read {
        handle,
        offset,
        length: wide_number(rest.as_bytes())?,
    })
}

fn parse_whole(text: &str) -> Option<Call<'_>>
    ensures { option_map asked result ≡ whole_of text.now }
{
    let (handle, rest) = number(text)?;
    Some(Call::Whole {
        handle,
        length: wide_number(rest.as_bytes())?,
    })
}

fn parse_list(text: &str) -> Option<Call<'_>>
    ensures { option_map asked result ≡ list_of text.now }
{
    let (index, rest) = number(text)?;
    let (length, rest) = number(rest)?;
    Some(Call::List {
        index,
        length,
        path: PathWord::parse(rest.as_bytes())?,
    })
}
