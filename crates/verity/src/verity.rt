// The path check: a device that gives only blocks whose path leads from the root digest.
ghost use Rattle.std.specs.Prelude.{◌≡◌, [], OnErr, length, option_map, replicate};
ghost use Rattle.device.specs.Answer.{answered, filled, question, returned};
ghost use Rattle.device.specs.Layer.{layered, Through};
ghost use Rattle.device.specs.Run.{Ran};
ghost use Rattle.device.proofs.Layers.{layered-sized, through-onward};
ghost use Rattle.geometry.specs.Of.{shape_of};
ghost use Rattle.layers.specs.Laws.{AnswerJudged, LastNamed, PathStops};
ghost use Rattle.layers.specs.Verity.{verity as verity_of, verity_layer};
ghost use Rattle.layers.specs.Store.{path_check};
ghost use Rattle.layers.proofs.Sizes.{verity_layer-fits};
ghost use Rattle.layers.proofs.Stores.{check-steps, path_check-store};
ghost use Rattle.verity.specs.Anchored.{told_by};
ghost use Rattle.verity.specs.Layer.{below_of, label_of};

use crate::anchor::Anchored;
use device::{Area, Device};
use digest::Digest;
use geometry::{Geometry, Label};
use layers::{StorageFault, Store};

/// A device that gives a data block only after each block on its path, from the top of the tree down, has the salted digest that
/// the root or the block above it tells.
#[derive(Drop)]
pub struct Verity<H: Digest, D: Device> {
    // None where the label was refused.
    pub(crate) anchor: Option<Anchored<H>>,
    pub(crate) below: D,
}

impl<H: Digest + Drop, D: Device> Verity<H, D> {
    /// Copies the label if it is good. Refused, it makes every answer that refusal, 2.
    pub fn new(digest: H, label: &Label<'_>, below: D) -> Verity<H, D>
        ensures label { label_of result ≡ told_by H.NUMBER H.LEN H.meaning label.now }
        ensures below { below_of result ≡ below }
    {
        Verity {
            anchor: Anchored::new(digest, label),
            below,
        }
    }

    /// Gives the device below back.
    pub fn into_below(self) -> D
        ensures { result ≡ below_of self }
    {
        self.below
    }
}

impl<H: Digest, D: Device> Verity<H, D> {
    // The check of one question.
    fn answer(
        &mut self,
        area: Area,
        block: u32,
        buf: &mut [u8],
    ) -> Result<(), StorageFault<D::Refusal>>
        ensures run { Ran D.meaning D.moves self.old.below (verity_of (label_of self.old) (question area block buf.old)) (answered result buf.new) self.new.below }
        ensures zeros { OnErr result (buf.new ≡ replicate (length buf.old) 0) }
        ensures label { self.new.anchor ≡ self.old.anchor }
    {
        let Some(anchor) = &self.anchor else {
            buf.fill(0);
            return Err(StorageFault::Label);
        };
        if !anchor.holds(area, block, buf.len()) {
            buf.fill(0);
            return Err(StorageFault::NoBlock(block));
        }
        anchor.walk(&mut self.below, block, buf)
    }
}

impl<H: Digest, D: Device> Device for Verity<H, D> {
    type Refusal = StorageFault<D::Refusal>;

    ghost meaning = { λ v. layered verity_layer (label_of v) (D.meaning (below_of v)) };

    ghost moves = { λ v q w. Through D.meaning D.moves verity_layer (label_of v) (below_of v) q (label_of w) (below_of w) };

    fn ask(&mut self, area: Area, block: u32, buf: &mut [u8]) -> Result<(), Self::Refusal>
        ensures answer { result ≡ returned (layered verity_layer (label_of self.old) (D.meaning (below_of self.old)) [] (question area block buf.old)) }
        ensures bytes { buf.new ≡ filled (length buf.old) (layered verity_layer (label_of self.old) (D.meaning (below_of self.old)) [] (question area block buf.old)) }
        ensures moves { Through D.meaning D.moves verity_layer (label_of self.old) (below_of self.old) (question area block buf.old) (label_of self.new) (below_of self.new) }
        ensures path { PathStops (label_of self.old) (D.meaning (below_of self.old)) (question area block buf.old) (answered result buf.new) }
        ensures last { LastNamed (label_of self.old) (D.meaning (below_of self.old)) (question area block buf.old) (answered result buf.new) }
        ensures judged { AnswerJudged (label_of self.old) (D.meaning (below_of self.old)) (question area block buf.old) (answered result buf.new) }
    {
        self.answer(area, block, buf)
    }

    ghost sized = { λ v. layered-sized verity_layer (λ label. Unit {0}) verity_layer-fits (D.meaning (below_of v)) (D.sized (below_of v)) (label_of v) tt };

    ghost onward = { λ v w q moved. through-onward D.meaning D.moves D.onward verity_layer (label_of v) (below_of v) q (label_of w) (below_of w) moved };
}

/// As a store it remembers nothing between two questions.
impl<H: Digest + Drop, D: Device> Store for Verity<H, D> {
    type Bottom = D;

    ghost Memory = { Unit {0} };

    ghost memory = { λ v. tt };

    ghost label = { label_of };

    ghost bottom = { below_of };

    ghost rule = { path_check D.Refusal };

    ghost Keeps = { λ p none. Unit {0} };

    fn geometry(&self) -> Option<Geometry> {
        match &self.anchor {
            Some(anchor) => Some(anchor.geometry),
            None => None,
        }
    }

    fn into_bottom(self) -> D {
        self.into_below()
    }

    ghost steps = { λ v w q moved. check-steps D.meaning D.moves D.onward (label_of v) (below_of v) q (label_of w) (below_of w) moved };

    ghost lawful = { path_check-store };
}
