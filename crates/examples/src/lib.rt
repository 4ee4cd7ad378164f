// The standard's worked examples, proved by computation.
#![tactic(auto)]

ghost use Rattle.examples.specs.Examples.{Examples};

pub fn examples_stand()
    ensures { Examples }
{}
