// A device that counts the questions put to the one below, and passes each on.
ghost use Rattle.std.specs.Prelude.{◌≡◌, ◌+◌, ◌-◌, ◌^◌, min};

use device::{Area, Device};

/// Answers and asks as the device below.
#[derive(Drop)]
pub struct Counting<D: Device> {
    below: D,
    asked: u64,
}

impl<D: Device> Counting<D> {
    /// No question is counted yet.
    pub fn new(below: D) -> Counting<D>
        ensures below { result.below ≡ below }
        ensures asked { result.asked ≡ 0 }
    {
        Counting { below, asked: 0 }
    }

    /// How many questions were asked, refused ones among them; no more than 2^64 − 1 are counted.
    pub fn asked(&self) -> u64
        ensures { result ≡ self.now.asked }
    {
        self.asked
    }

    /// The device below, as it is.
    pub fn into_below(self) -> D
        ensures { result ≡ self.below }
    {
        self.below
    }
}

impl<D: Device> Device for Counting<D> {
    type Refusal = D::Refusal;

    ghost meaning = { λ c. D.meaning c.below };

    // each question is one more, refused ones among them
    ghost moves = { λ c q e. D.moves c.below q e.below × (e.asked ≡ min (c.asked + 1) (2 ^ 64 - 1)) };

    fn ask(&mut self, area: Area, block: u32, buf: &mut [u8]) -> Result<(), D::Refusal> {
        self.asked = self.asked.saturating_add(1);
        self.below.ask(area, block, buf)
    }

    ghost sized = { λ c. D.sized c.below };

    ghost onward = { λ c e q moved. D.onward c.below e.below q moved.0 };
}
