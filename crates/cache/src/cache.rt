// A device that keeps the last blocks that the one below gave.
ghost use Rattle.std.specs.Prelude.{◌≡◌, OnErr, length, replicate};
ghost use Rattle.device.specs.Answer.{answered, question};
ghost use Rattle.device.specs.Layer.{layered, Through};
ghost use Rattle.device.specs.Run.{Ran};
ghost use Rattle.device.proofs.Layers.{layered-sized, ran-stacked, through-onward};
ghost use Rattle.layers.specs.Cache.{Table, cache_layer, empty};
ghost use Rattle.layers.specs.Store.{AllRight, cache_over};
ghost use Rattle.layers.proofs.Caching.{AllWhole, cache_layer-fits};
ghost use Rattle.layers.proofs.Stores.{cache_over-store};
ghost use Rattle.cache.specs.Layer.{below_of, table};
ghost use Rattle.cache.specs.Whole.{whole_rows};

use crate::rows::Rows;
use device::{Area, Device, Question};
use geometry::Geometry;
use layers::Store;

/// A device that answers a question again from one of four rows, by area, number and length, and asks the one below for any other.
/// An accepted answer of at most 4,096 bytes goes into the rows in turn.
#[derive(Drop)]
pub struct Cache<D: Device> {
    pub(crate) rows: Rows,
    pub(crate) below: D,
}

impl<D: Device> Cache<D> {
    /// A cache that has nothing yet.
    pub fn new(below: D) -> Cache<D>
        ensures table { table result ≡ empty }
        ensures below { below_of result ≡ below }
    {
        Cache {
            rows: Rows::empty(),
            below,
        }
    }

    /// Gives the device below back.
    pub fn into_below(self) -> D
        ensures { result ≡ below_of self }
    {
        self.below
    }

    /// The device below.
    pub fn below(&self) -> &D
        ensures { result.now ≡ below_of self.now }
    {
        &self.below
    }

    // One question, from a row or from below.
    fn answer(&mut self, area: Area, block: u32, buf: &mut [u8]) -> Result<(), D::Refusal>
        ensures run { Ran D.meaning D.moves (below_of self.old) (cache_layer (table self.old) (question area block buf.old)) (answered result buf.new, table self.new) (below_of self.new) }
        ensures zeros { OnErr result (buf.new ≡ replicate (length buf.old) 0) }
    {
        let question = Question {
            area,
            block,
            length: buf.len(),
        };
        if let Some(bytes) = self.rows.find(&question) {
            buf.copy_from_slice(bytes);
            return Ok(());
        }
        self.below.ask(area, block, buf)?;
        self.rows.keep(question, buf);
        Ok(())
    }
}

impl<D: Device> Device for Cache<D> {
    type Refusal = D::Refusal;

    ghost meaning = { λ c. layered cache_layer (table c) (D.meaning (below_of c)) };

    ghost moves = { λ c q e. Through D.meaning D.moves cache_layer (table c) (below_of c) q (table e) (below_of e) };

    fn ask(&mut self, area: Area, block: u32, buf: &mut [u8]) -> Result<(), Self::Refusal> {
        self.answer(area, block, buf)
    }

    ghost sized = { λ c. layered-sized cache_layer AllWhole cache_layer-fits (D.meaning (below_of c)) (D.sized (below_of c)) (table c) (whole_rows c.rows.rows) };

    ghost onward = { λ c e q moved. through-onward D.meaning D.moves D.onward cache_layer (table c) (below_of c) q (table e) (below_of e) moved };
}

/// Over a store it is one: it remembers its rows, and what the store does.
impl<S: Store> Store for Cache<S> {
    type Bottom = S::Bottom;

    ghost Memory = { Table × S.Memory };

    ghost memory = { λ c. (table c, S.memory (below_of c)) };

    ghost label = { λ c. S.label (below_of c) };

    ghost bottom = { λ c. S.bottom (below_of c) };

    ghost rule = { cache_over S.rule };

    ghost Keeps = { λ p both. AllRight p both.0 × S.Keeps p both.1 };

    fn geometry(&self) -> Option<Geometry> {
        self.below.geometry()
    }

    fn into_bottom(self) -> S::Bottom {
        self.below.into_bottom()
    }

    ghost steps = { λ c e q moved. ran-stacked S.Bottom.meaning S.Bottom.moves S.rule.step S.label S.memory S.bottom S.meaning S.moves S.steps S.onward cache_layer (table c) (below_of c) q (table e) (below_of e) moved };

    ghost lawful = { cache_over-store S.rule S.Keeps S.lawful };
}
