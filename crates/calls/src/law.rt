// The law of runs; each function's contract is a theorem.
ghost use Rattle.calls.specs.Law.{HonestIsImage, LawOfRuns};
ghost use Rattle.calls.specs.Mount.{cached_check};

use device::Device;
use layers::Store;

/// Any use of one mount over any store, whatever the device at its bottom answers, keeps the law.
pub fn law_of_runs<S: Store>()
    ensures { LawOfRuns S.rule S.Bottom.meaning S.Bottom.moves }
{}

/// Over a device that gives the publisher's blocks every answer is the image's.
pub fn honest_is_image<S: Store>()
    ensures { HonestIsImage S.rule S.Bottom.meaning S.Bottom.moves }
{}

/// Any use of one mount over a cache over the path check keeps the law, whatever device lies below.
pub fn law_of_cached_runs<D: Device>()
    ensures { LawOfRuns (cached_check D.Refusal) D.meaning D.moves }
{}

/// There too, over a device that gives the publisher's blocks, every answer is the image's.
pub fn honest_cached_is_image<D: Device>()
    ensures { HonestIsImage (cached_check D.Refusal) D.meaning D.moves }
{}
