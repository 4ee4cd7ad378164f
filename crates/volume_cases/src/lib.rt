// Worked cases of the volume's rules, on images of one block that are written word by word.
#![tactic(auto)]

ghost use Rattle.volume_cases.specs.Headers.{HeaderCases};
ghost use Rattle.volume_cases.specs.InUse.{KindCases, UseCases};
ghost use Rattle.volume_cases.specs.Lists.{ListCases};
ghost use Rattle.volume_cases.specs.Names.{NameCases};
ghost use Rattle.volume_cases.specs.Paths.{PathCases};
ghost use Rattle.volume_cases.specs.Starts.{StartCases};

/// The start of a volume.
pub fn starts_stand()
    ensures { StartCases }
{}

/// Headers, and what their names may be.
pub fn headers_stand()
    ensures { HeaderCases }
{}

pub fn names_stand()
    ensures { NameCases }
{}

/// Lists of headers, and which entry of one is meant.
pub fn lists_stand()
    ensures { ListCases }
{}

/// Directories entered, links followed, and files.
pub fn uses_stand()
    ensures { UseCases }
{}

/// Kinds that are no directory, or no file.
pub fn kinds_stand()
    ensures { KindCases }
{}

/// The components of a path, and the place that a fault has in it.
pub fn paths_stand()
    ensures { PathCases }
{}
