// What became of a card's tree and root, built again.
ghost use Rattle.std.specs.Prelude.{◌≡◌, ◌↔◌};

use builder::BuildFault;
use std::fmt;

#[derive(Clone, Copy, PartialEq, Eq)]
pub enum Outcome {
    Same,
    Different,
    Refused(BuildFault),
}

impl Outcome {
    // The same, where both are as veritysetup made them.
    pub fn of(tree: &[u8], made_tree: &[u8], root: &[u8], made_root: &[u8]) -> Outcome
        ensures { (result ≡ Outcome.Same) ↔ ((tree.now ≡ made_tree.now) × (root.now ≡ made_root.now)) }
    {
        if tree == made_tree && root == made_root {
            Outcome::Same
        } else {
            Outcome::Different
        }
    }
}

impl fmt::Display for Outcome {
    fn fmt<W: fmt::Write>(&self, f: &mut fmt::Formatter<W>) -> fmt::Result {
        match self {
            Outcome::Same => write!(f, "as veritysetup made them"),
            Outcome::Different | Outcome::Refused(_) => {
                write!(f, "NOT as veritysetup made them")
            }
        }
    }
}
