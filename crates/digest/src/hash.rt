// A whole message through the block step, one text for both words.
ghost use Rattle.std.specs.Prelude.{◌≡◌, ◌+◌, ◌*◌, ◌/◌, ◌≤◌, ◌++◌, length, take};
ghost use Rattle.constants.specs.Rule.{starting_words};
ghost use Rattle.digest.specs.Message.{joined};
ghost use Rattle.digest.specs.Hash.{block_at, hash as hash_of, last_state, start_of, state_bytes, word_at};
ghost use Rattle.sha2_block.specs.Bytes.{big_endian};
ghost use Rattle.sha2_block.specs.Window.{eight, sixteen};

use crate::message::Message;
use crate::padded::PADDED;
use constants::starting_words;
use sha2_block::{State, Word, Words, compress};

// Word `i` of a block.
#[tactic(auto, using(crate::proofs::Blocks::read_word))]
fn word<W: Word>(block: &[u8], i: usize) -> W
    requires { (i + 1) * (W.variant.bits / 8) ≤ length block.now }
    ensures { W.value result ≡ word_at W.variant block.now i }
{
    W::read(&block[i * W::size()..])
}

// The sixteen words of a block, by name as `Words` has them.
#[tactic(auto, using(crate::proofs::Blocks::block_is))]
fn words<W: Word>(block: &[u8]) -> Words<W>
    requires { 16 * (W.variant.bits / 8) ≤ length block.now }
    ensures { sixteen W.value result ≡ block_at W.variant block.now 0 }
{
    Words {
        w0: word(block, 0),
        w1: word(block, 1),
        w2: word(block, 2),
        w3: word(block, 3),
        w4: word(block, 4),
        w5: word(block, 5),
        w6: word(block, 6),
        w7: word(block, 7),
        w8: word(block, 8),
        w9: word(block, 9),
        w10: word(block, 10),
        w11: word(block, 11),
        w12: word(block, 12),
        w13: word(block, 13),
        w14: word(block, 14),
        w15: word(block, 15),
    }
}

// The state after the message, from a starting state.
fn digested<W: Word>(start: State<W>, message: &Message<'_>) -> State<W>
    ensures { eight W.value result ≡ last_state W.variant (eight W.value start) (joined message.now) }
{
    // room for the longest padded message, since there is no heap here
    let mut buf = [0u8; PADDED];
    let mut state = start;
    for block in message.pad::<W>(&mut buf).chunks_exact(16 * W::size()) {
        state = compress(state, words(block));
    }
    state
}

#[tactic(auto, unfolding(crate::specs::Hash::start_of))]
fn starting_state<W: Word>() -> State<W>
    ensures { eight W.value result ≡ start_of W.variant starting_words }
{
    let [a, b, c, d, e, f, g, h] = *starting_words();
    State {
        a: W::upper(a),
        b: W::upper(b),
        c: W::upper(c),
        d: W::upper(d),
        e: W::upper(e),
        f: W::upper(f),
        g: W::upper(g),
        h: W::upper(h),
    }
}

// Writes a word over the bytes at a place.
#[tactic(auto, using(crate::proofs::Output::written_word))]
fn put_word<W: Word>(out: &mut [u8; 64], at: usize, w: W)
    requires { at + W.variant.bits / 8 ≤ 64 }
    ensures { take (at + W.variant.bits / 8) out.new ≡ take at out.old ++ big_endian (W.variant.bits / 8) (W.value w) }
{
    w.write(&mut out[at..at + W::size()]);
}

// The bytes of a state; those past them are zeros. Word by word: an array of a type parameter can only be gone over
// as a `Vec`, and there is no heap here.
#[tactic(auto, using(crate::proofs::Output::eight_writes))]
fn state_bytes<W: Word>(s: State<W>) -> [u8; 64]
    ensures { take W.variant.bits result ≡ state_bytes W.variant (eight W.value s) }
{
    let mut out = [0u8; 64];
    let n = W::size();
    put_word(&mut out, 0, s.a);
    put_word(&mut out, n, s.b);
    put_word(&mut out, 2 * n, s.c);
    put_word(&mut out, 3 * n, s.d);
    put_word(&mut out, 4 * n, s.e);
    put_word(&mut out, 5 * n, s.f);
    put_word(&mut out, 6 * n, s.g);
    put_word(&mut out, 7 * n, s.h);
    out
}

// Writes the first bytes of the digest of the message, as many as `out` has.
#[tactic(auto, using(crate::proofs::Output::kept), unfolding(crate::specs::Hash::hash))]
pub(crate) fn hash<W: Word>(message: &Message<'_>, out: &mut [u8])
    requires { length out.old ≤ W.variant.bits }
    ensures { out.new ≡ hash_of W.variant starting_words (length out.old) (joined message.now) }
{
    let bytes = state_bytes(digested(starting_state::<W>(), message));
    out.copy_from_slice(&bytes[..out.len()]);
}
