// What a digest answers: the hash where the lengths fit, else a refusal and zeros.
ghost use Rattle.std.specs.Prelude.{◌≡◌, ◌≤◌};
ghost use Rattle.constants.specs.Rule.{starting_words};
ghost use Rattle.digest.specs.Answer.{answer as answer_of, written};
ghost use Rattle.digest.specs.Hash.{hash as hash_of};

use crate::hash::hash;
use crate::message::Message;
use crate::refusal::Refusal;
use sha2_block::Word;

// The first `size` bytes of the hash of `first` joined to `second`, into `out`. The two are what a digest is asked by;
// they are a `Message` once they fit.
pub(crate) fn answer<W: Word>(
    size: usize,
    first: &[u8],
    second: &[u8],
    out: &mut [u8],
) -> Result<(), Refusal>
    requires { size ≤ W.variant.bits }
    ensures answer { result ≡ answer_of size first.now second.now out.old }
    ensures bytes { out.new ≡ written size (hash_of W.variant starting_words size) first.now second.now out.old }
{
    match Message::new(first, second) {
        Some(message) if out.len() == size => {
            hash::<W>(&message, out);
            Ok(())
        }
        _ => {
            out.fill(0);
            Err(Refusal::Length)
        }
    }
}
