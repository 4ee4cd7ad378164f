// What became of a question for a block.
ghost use Rattle.std.specs.Prelude.{◌≡◌, ◌↔◌, Ok};

use device::{Area, Device};
use std::fmt;

#[derive(PartialEq, Eq, Debug, Drop)]
pub enum Outcome<R> {
    // The block that was wanted.
    Right,
    Wrong,
    // With zeros in the buffer.
    Refused(R),
    // With something else in it.
    NotZeros(R),
}

impl<R> Outcome<R> {
    // Right, where the answer is the wanted block.
    pub fn of(answer: Result<(), R>, buf: &[u8], want: &[u8]) -> Outcome<R>
        ensures { (result ≡ Outcome.Right) ↔ ((answer ≡ Ok tt) × (buf.now ≡ want.now)) }
    {
        match answer {
            Ok(()) if buf == want => Outcome::Right,
            Ok(()) => Outcome::Wrong,
            Err(fault) if buf.iter().all(|byte| *byte == 0) => Outcome::Refused(fault),
            Err(fault) => Outcome::NotZeros(fault),
        }
    }
}

// Asks for data block `k` in a buffer that was not empty before.
pub fn ask<D: Device>(device: &mut D, k: u32, buf: &mut [u8], want: &[u8]) -> Outcome<D::Refusal> {
    buf.fill(170);
    let answer = device.ask(Area::Data, k, buf);
    Outcome::of(answer, buf, want)
}

impl<R: fmt::Display> fmt::Display for Outcome<R> {
    fn fmt<W: fmt::Write>(&self, f: &mut fmt::Formatter<W>) -> fmt::Result {
        match self {
            Outcome::Right => write!(f, "the image's"),
            Outcome::Wrong => write!(f, "NOT the image's"),
            Outcome::Refused(fault) => write!(f, "zeros, refused by {fault}"),
            Outcome::NotZeros(fault) => write!(f, "NOT zeros, refused by {fault}"),
        }
    }
}
