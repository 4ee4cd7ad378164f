// The interface of a device.
ghost use Rattle.std.specs.Prelude.{◌≡◌, [], ◌∷◌, length};
ghost use Rattle.device.specs.declared.question.Question.{Question};
ghost use Rattle.device.specs.Answer.{question, returned, filled};
ghost use Rattle.device.specs.Program.{after, Meaning, Sized};

use crate::question::Area;

pub trait Device {
    // Why a question was refused.
    type Refusal: Drop;

    // The answer to a question, after the questions of a list, put from now on.
    ghost meaning: { Self → Meaning Self.Refusal };

    // A question takes the device from one value to another.
    ghost moves: { Self → Question → Self → Type 0 };

    // Fills the buffer with the answer's bytes. Refused, it leaves the buffer all zeros.
    fn ask(&mut self, area: Area, block: u32, buf: &mut [u8]) -> Result<(), Self::Refusal>
        ensures answer { result ≡ returned (meaning self.old [] (question area block buf.old)) }
        ensures bytes { buf.new ≡ filled (length buf.old) (meaning self.old [] (question area block buf.old)) }
        ensures moves { moves self.old (question area block buf.old) self.new };

    // An answer has as many bytes as were asked for.
    ghost sized: { (d : Self) → Sized (meaning d) };

    // After a question the meaning is the earlier one for lists that begin with that question.
    ghost onward: { (d e : Self) (q : Question) → moves d q e → meaning e ≡ after (meaning d) (q ∷ []) };
}
