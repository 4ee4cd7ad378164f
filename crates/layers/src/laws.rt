// Laws of the path check over any device; each function's contract is one.
ghost use Rattle.layers.specs.CacheLaws.{CacheStands};
ghost use Rattle.layers.specs.Laws.{AnswersJudged, HonestAccepted, PathsStop};

/// A block is accepted if and only if the blocks that were given are the path from the root to it. Else the questions end at the
/// first block that was refused or has another digest, and the fault names it and its level.
pub fn paths_stop<R>()
    ensures { PathsStop R }
{}

// A wrong block is accepted only where a twin was given, and a fault names a block that was refused or wrong.
pub fn answers_judged<R>()
    ensures { AnswersJudged R }
{}

// A device that gives the publisher's blocks is never refused.
pub fn honest_accepted<R>()
    ensures { HonestAccepted R }
{}

/// What the cache's rows have is what the device below gave, it asks below only what no row has, and an answer from below of at
/// most 4,096 bytes goes into the row whose turn it is.
pub fn cache_stands<R>()
    ensures { CacheStands R }
{}
