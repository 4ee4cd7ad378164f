// What the fetches of a mount are put to.
ghost use Rattle.std.specs.Prelude.{◌≡◌, [], Option, option_map};
ghost use Rattle.device.specs.declared.question.Question.{Question};
ghost use Rattle.device.specs.Run.{Ran};
ghost use Rattle.geometry.specs.Of.{shape_of};
ghost use Rattle.layers.specs.Anchor.{Anchor};
ghost use Rattle.layers.specs.Publisher.{Publisher};
ghost use Rattle.layers.specs.Store.{IsStore, StoreRule};

use crate::fault::StorageFault;
use device::Device;
use geometry::Geometry;

/// A device that gives the blocks of the image that a label tells of, or a storage fault, from what another device gives: the
/// path check, or a cache over a store.
pub trait Store: Device<Refusal = StorageFault<<Self::Bottom as Device>::Refusal>> {
    /// The device at the bottom, of which nothing is known.
    type Bottom: Device;

    // What it remembers between two questions.
    ghost Memory: { Type 0 };

    ghost memory: { Self → Memory };

    // What its label tells, unless it was refused.
    ghost label: { Self → Option Anchor };

    ghost bottom: { Self → Self.Bottom };

    // What it remembers at first, and what it asks the device at the bottom for a question.
    ghost rule: { StoreRule Self.Bottom.Refusal Memory };

    // What is known of its memory, where no twin was given.
    ghost Keeps: { Publisher → Memory → Type 0 };

    /// The geometry that the label tells, unless it was refused.
    fn geometry(&self) -> Option<Geometry>
        ensures { option_map shape_of result ≡ option_map (λ anchor. anchor.shape) (label self.now) };

    /// Gives the device at the bottom back.
    fn into_bottom(self) -> Self::Bottom
        ensures { result ≡ bottom self };

    // A question takes it from one value to another by exactly what its rule asks, and leaves the label.
    ghost steps: { (s t : Self) (q : Question) → Self.moves s q t → Ran Self.Bottom.meaning Self.Bottom.moves (bottom s) (rule.step (label s) (memory s) q) (Self.meaning s [] q, memory t) (bottom t) × (label t ≡ label s) };

    // It gives the publisher's blocks or names one to blame, and asks for a block along one path or not at all.
    ghost lawful: { IsStore rule Keeps };
}

/// Why the device at the bottom of a store refuses a block.
pub type RefusalBelow<S> = <<S as Store>::Bottom as Device>::Refusal;
