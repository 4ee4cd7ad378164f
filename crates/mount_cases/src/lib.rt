// Worked cases of fetches, of the six calls, of the two layers, of trees and of blame.
#![tactic(auto)]

ghost use Rattle.mount_cases.specs.Asks.{AskCases};
ghost use Rattle.mount_cases.specs.Blames.{BlameCases};
ghost use Rattle.mount_cases.specs.Caches.{CacheCases};
ghost use Rattle.mount_cases.specs.Calls.{CallCases};
ghost use Rattle.mount_cases.specs.Checks.{CheckCases};
ghost use Rattle.mount_cases.specs.Cuts.{CutCases};
ghost use Rattle.mount_cases.specs.Fetches.{FetchCases};
ghost use Rattle.mount_cases.specs.Numbers.{NumberCases};
ghost use Rattle.mount_cases.specs.Places.{PlaceCases};
ghost use Rattle.mount_cases.specs.Rows.{RowCases};
ghost use Rattle.mount_cases.specs.States.{StateCases};
ghost use Rattle.mount_cases.specs.Trees.{TreeCases};

/// What a fetch asks for, and the bytes that it takes.
pub fn fetches_stand()
    ensures { FetchCases }
{}

/// The places of what is refused below.
pub fn places_stand()
    ensures { PlaceCases }
{}

/// What the calls answer, and what the mount remembers after them.
pub fn calls_stand()
    ensures { CallCases }
{}

pub fn states_stand()
    ensures { StateCases }
{}

/// The number of each rule.
pub fn numbers_stand()
    ensures { NumberCases }
{}

/// The path check, the cache, and the tree.
pub fn checks_stand()
    ensures { CheckCases }
{}

pub fn caches_stand()
    ensures { CacheCases }
{}

pub fn trees_stand()
    ensures { TreeCases }
{}

/// The publisher's blocks, and what is to blame for a fault.
pub fn blames_stand()
    ensures { BlameCases }
{}

/// The words of the law: paths and those that are cut, what fetches ask for, and what the cache keeps.
pub fn cuts_stand()
    ensures { CutCases }
{}

pub fn asks_stand()
    ensures { AskCases }
{}

pub fn rows_stand()
    ensures { RowCases }
{}
