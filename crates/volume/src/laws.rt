// A law of the rules, as a function's contract.
ghost use Rattle.volume.specs.Laws.{StepsSuffice};

/// Going along a list with more steps than the volume has bytes comes to the same.
pub fn steps_suffice<F>()
    ensures { StepsSuffice F }
{}
