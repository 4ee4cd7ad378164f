// Why a volume, or a path on it, was refused. `F` is the fault of the device below.
ghost use Rattle.std.specs.Prelude.{◌≡◌, Some};
ghost use Rattle.volume.specs.declared.fault.PathFault.TheVariants.{Volume};
ghost use Rattle.volume.specs.declared.fault.VolumeFault.TheVariants.{Storage};
ghost use Rattle.volume.specs.Fault.{path_number, volume_number};
ghost use Rattle.volume.specs.Sentence.{path_fault_text, path_rule_text, path_sentence, volume_fault_text, volume_rule_text, volume_sentence};

use std::fmt;

/// The rules that a volume can break.
#[derive(Clone, Copy, PartialEq, Eq, Debug, Drop)]
pub enum VolumeRule {
    /// The text at the start.
    Text = 20,
    /// The full size.
    Size = 21,
    /// The words of the start do not sum to zero.
    Sum = 22,
    /// The volume's name has no end, or leaves no room for a header.
    VolumeName = 23,
    /// A header outside the volume.
    Range = 30,
    /// A header's name.
    Name = 31,
    /// The words of a header do not sum to zero.
    HeaderSum = 32,
    /// The header after this one does not lie behind it.
    Next = 33,
    /// The info of a link, a directory or a file.
    Info = 34,
    /// A file's data reach past the volume's end.
    Data = 35,
    /// More links in a row than are followed.
    Links = 36,
    /// A link that leads to a directory.
    LinkedDirectory = 37,
}

impl VolumeRule {
    /// The rule's number, 20 to 23 or 30 to 37.
    pub fn number(self) -> u8
        ensures { result ≡ volume_number self }
    {
        self as u8
    }

    fn sentence(self) -> &'static str
        ensures { result.now ≡ volume_sentence self }
    {
        match self {
            VolumeRule::Text => "no romfs volume begins here",
            VolumeRule::Size => "the volume's size is no multiple of 16, or above the image's",
            VolumeRule::Sum => "the first words of the volume do not sum to zero",
            VolumeRule::VolumeName => {
                "the volume's name does not end, or leaves no room for a header"
            }
            VolumeRule::Range => "a header is sought outside the volume",
            VolumeRule::Name => "a header's name is not 1 to 127 printable bytes without a slash",
            VolumeRule::HeaderSum => "the words of a header do not sum to zero",
            VolumeRule::Next => "a header's next one does not lie behind it",
            VolumeRule::Info => "a header has an info that its kind cannot have",
            VolumeRule::Data => "a file's bytes reach past the end of the volume",
            VolumeRule::Links => "this is the ninth hard link in a row",
            VolumeRule::LinkedDirectory => "a hard link leads to this directory",
        }
    }
}

impl fmt::Display for VolumeRule {
    ghost output = { λ rule. Some (volume_rule_text rule) };

    fn fmt<W: fmt::Write>(&self, f: &mut fmt::Formatter<W>) -> fmt::Result {
        write!(f, "{}: {}", self.number(), self.sentence())
    }
}

/// Why a volume was refused.
#[derive(Clone, Copy, PartialEq, Eq, Debug, Drop)]
pub enum VolumeFault<F> {
    /// A rule that is broken at this offset.
    Rule(u32, VolumeRule),
    /// The device refused the fetch that begins at this offset.
    Storage(u32, F),
}

// A refusal of the device, put with the first byte of the fetch.
impl<F> From<(F, u32)> for VolumeFault<F> {
    ghost from_gives = { λ lower fault. fault ≡ Storage lower.1 lower.0 };

    fn from(lower: (F, u32)) -> VolumeFault<F> {
        VolumeFault::Storage(lower.1, lower.0)
    }
}

impl<F: fmt::Display> fmt::Display for VolumeFault<F> {
    ghost output = { λ fault. volume_fault_text F.output fault };

    fn fmt<W: fmt::Write>(&self, f: &mut fmt::Formatter<W>) -> fmt::Result {
        match self {
            VolumeFault::Rule(at, rule) => write!(f, "{rule}, at byte {at} of the volume"),
            VolumeFault::Storage(at, below) => {
                write!(f, "{below}, reading from byte {at} of the volume on")
            }
        }
    }
}

/// The rules that a path can break.
#[derive(Clone, Copy, PartialEq, Eq, Debug, Drop)]
pub enum PathRule {
    /// An empty component, `.` or `..`, or no component where one is wanted.
    Component = 40,
    /// No such entry.
    Missing = 41,
    /// Not a directory.
    NotDirectory = 42,
    /// Not a regular file.
    NotFile = 43,
}

impl PathRule {
    /// The rule's number, 40 to 43.
    pub fn number(self) -> u8
        ensures { result ≡ path_number self }
    {
        self as u8
    }

    fn sentence(self) -> &'static str
        ensures { result.now ≡ path_sentence self }
    {
        match self {
            PathRule::Component => "a name is missing, or is `.` or `..`",
            PathRule::Missing => "there is no such entry",
            PathRule::NotDirectory => "this is no directory",
            PathRule::NotFile => "this is no regular file",
        }
    }
}

impl fmt::Display for PathRule {
    ghost output = { λ rule. Some (path_rule_text rule) };

    fn fmt<W: fmt::Write>(&self, f: &mut fmt::Formatter<W>) -> fmt::Result {
        write!(f, "{}: {}", self.number(), self.sentence())
    }
}

/// Why a path was refused.
#[derive(Clone, Copy, PartialEq, Eq, Debug, Drop)]
pub enum PathFault<F> {
    /// A rule that is broken by the component at this offset of the path.
    Rule(usize, PathRule),
    /// The volume is refused while this component is sought or used.
    Volume(usize, VolumeFault<F>),
}

// A fault of the volume, put with the place of the component.
impl<F> From<(VolumeFault<F>, usize)> for PathFault<F> {
    ghost from_gives = { λ lower fault. fault ≡ Volume lower.1 lower.0 };

    fn from(lower: (VolumeFault<F>, usize)) -> PathFault<F> {
        PathFault::Volume(lower.1, lower.0)
    }
}

impl<F: fmt::Display> fmt::Display for PathFault<F> {
    ghost output = { λ fault. path_fault_text F.output fault };

    fn fmt<W: fmt::Write>(&self, f: &mut fmt::Formatter<W>) -> fmt::Result {
        match self {
            PathFault::Rule(at, rule) => write!(f, "{rule}, at byte {at} of the path"),
            PathFault::Volume(at, fault) => write!(f, "{fault}, for byte {at} of the path"),
        }
    }
}
