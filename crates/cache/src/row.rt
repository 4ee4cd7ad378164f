// A row: a question, and the bytes that it got.
ghost use Rattle.std.specs.Prelude.{◌≡◌, IfSome, length, take};
ghost use Rattle.std.proofs.Props.{props};

use device::Question;
use geometry::BLOCK_LIMIT;

#[derive(Clone, Copy)]
pub(crate) struct Row {
    pub(crate) question: Option<Question>,
    // no heap: the question's bytes, and whatever was there behind them
    pub(crate) bytes: [u8; BLOCK_LIMIT],
    ghost whole: { IfSome question (λ q. length (take q.length bytes) ≡ q.length) } by { Prim.hlevel props },
}

impl Row {
    ghost use Rattle.std.specs.Prelude.{◌≡◌, ◌≤◌, MatchOption, None, Some};
    ghost use Rattle.geometry.specs.Limits.{block_limit};
    ghost use Rattle.layers.specs.Cache.{row_for};
    ghost use Rattle.cache.specs.Rows.{row_of};

    pub(crate) fn empty() -> Row
        ensures { row_of result ≡ None }
    {
        Row {
            question: None,
            bytes: [0; BLOCK_LIMIT],
        }
    }

    // The bytes that the row has for a question.
    pub(crate) fn get(&self, question: &Question) -> Option<&[u8]>
        ensures found { MatchOption result (row_for question.now (row_of self.now) ≡ None) (λ bytes. row_for question.now (row_of self.now) ≡ Some bytes.now) }
        ensures long { IfSome result (λ bytes. length bytes.now ≡ question.now.length) }
    {
        let kept = self.question?;
        if kept != *question {
            return None;
        }
        Some(&self.bytes[..kept.length])
    }

    // Writes the row anew.
    pub(crate) fn put(&mut self, question: Question, bytes: &[u8])
        requires whole { length bytes.now ≡ question.length }
        requires short { length bytes.now ≤ block_limit }
        ensures { row_of self.new ≡ Some (record { question = question; bytes = bytes.now }) }
    {
        let mut kept = [0; BLOCK_LIMIT];
        kept[..bytes.len()].copy_from_slice(bytes);
        *self = Row {
            question: Some(question),
            bytes: kept,
        };
    }
}
