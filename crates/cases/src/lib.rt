// Worked cases of the rules, proved by computation.
#![tactic(auto)]

ghost use Rattle.cases.specs.MixedCard.{MixedCard};
ghost use Rattle.cases.specs.SmallCard.{SmallCard};
ghost use Rattle.cases.specs.Worked.{WorkedList};

/// The worked list, by the rules of tree, path check, volume and calls.
pub fn worked_list_stands()
    ensures { WorkedList }
{}

/// Cards that genromfs made, read by the rules.
pub fn mixed_card_stands()
    ensures { MixedCard }
{}

pub fn small_card_stands()
    ensures { SmallCard }
{}
