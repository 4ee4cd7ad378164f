// The components of a path, one after the other.
ghost use Rattle.std.specs.Prelude.{◌≡◌, ◌≤◌, ◌==◌, length};
ghost use Rattle.std.specs.List.{position, position_or_len};

use crate::sought::is_dots;

// Its bytes are those of the path from `at` to `end`; behind it stands a slash, or nothing.
#[derive(Clone, Copy)]
pub(crate) struct Component<'a> {
    path: &'a [u8],
    pub(crate) at: usize,
    end: usize,
    ghost some: { at ≤ end },
    ghost inside: { end ≤ length path.now },
}

fn slash_at(bytes: &[u8]) -> Option<usize>
    ensures { result ≡ position (λ b. b == 0x2f) bytes.now }
{
    bytes.iter().position(|byte| *byte == b'/')
}

// How many bytes precede the first slash, or all.
#[tactic(auto, using(crate::proofs::Parting::before_slash))]
fn before_slash(bytes: &[u8]) -> usize
    ensures value { result ≡ position_or_len (λ b. b == 0x2f) bytes.now }
    ensures short { result ≤ length bytes.now }
{
    match slash_at(bytes) {
        Some(before) => before,
        None => bytes.len(),
    }
}

impl<'a> Component<'a> {
    ghost use Rattle.std.specs.Prelude.{◌<◌, [], drop, IfSome};
    ghost use Rattle.volume.specs.Paths.{first_bad as first_bad_of, is_bad as is_bad_name, parts, parts_from};
    ghost use Rattle.reader.specs.Parts.{part_value, parts_behind, parts_of};

    // The component that begins at an offset.
    fn from_offset(path: &'a [u8], at: usize) -> Component<'a>
        requires { at ≤ length path.now }
        ensures parts { parts_of (Some result) ≡ parts_from at [] (drop at path.now) }
        ensures path { result.path.now ≡ path.now }
        ensures at { result.at ≡ at }
    {
        Component {
            path,
            at,
            end: at + before_slash(&path[at..]),
        }
    }

    // The first component of a path; the empty path has none.
    pub(crate) fn first(path: &'a [u8]) -> Option<Component<'a>>
        ensures parts { parts_of result ≡ parts path.now }
    {
        if path.is_empty() {
            None
        } else {
            Some(Component::from_offset(path, 0))
        }
    }

    // The one behind it.
    pub(crate) fn next(&self) -> Option<Component<'a>>
        ensures parts { parts_of result ≡ parts_behind self.now }
        ensures path { IfSome result (λ c. c.path.now ≡ self.now.path.now) }
        ensures on { IfSome result (λ c. self.now.end < c.end) }
    {
        if self.end == self.path.len() {
            None
        } else {
            Some(Component::from_offset(self.path, self.end + 1))
        }
    }

    pub(crate) fn name(&self) -> &'a [u8]
        ensures { result.now ≡ (part_value self.now).name }
    {
        &self.path[self.at..self.end]
    }

    // Whether no path may have it.
    fn is_bad(&self) -> bool
        ensures { result ≡ is_bad_name (part_value self.now).name }
    {
        self.at == self.end || is_dots(self.name())
    }

    // The offset of the first component that no path may have.
    pub(crate) fn first_bad(path: &[u8]) -> Option<usize>
        ensures { result ≡ first_bad_of (parts path.now) }
    {
        let mut part = Component::first(path);
        while let Some(component) = part {
            if component.is_bad() {
                return Some(component.at);
            }
            part = component.next();
        }
        None
    }
}
