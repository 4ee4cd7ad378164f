// Laws of the definitions; each function's contract is one.
ghost use Rattle.tree.specs.Laws.{LevelsStand, PathsStand, PlacesStand, SlotsStand, TreeBinds};

// There are enough levels for every block, and no more than that.
pub fn levels_stand()
    ensures { LevelsStand }
{}

// Each slot holds the salted digest of the block below it, and nothing else stands in a tree block.
pub fn slots_stand()
    ensures { SlotsStand }
{}

// The tree is its blocks, the top level first, each at its place.
pub fn places_stand()
    ensures { PlacesStand }
{}

// Following the slots from the root leads to every data block.
pub fn paths_stand()
    ensures { PathsStand }
{}

// Two images of one length with one root are equal, or two different blocks have one salted digest.
pub fn tree_binds()
    ensures { TreeBinds }
{}
