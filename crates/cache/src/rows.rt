// Four rows, written in turn.
ghost use Rattle.std.specs.Prelude.{◌<◌};

use crate::row::Row;
use device::Question;
use geometry::BLOCK_LIMIT;

// Which row is written next.
#[derive(Clone, Copy)]
pub(crate) struct Turn {
    pub(crate) row: usize,
    ghost low: { row < 4 },
}

#[derive(Clone, Copy)]
pub(crate) struct Rows {
    pub(crate) rows: [Row; 4],
    pub(crate) turn: Turn,
}

impl Turn {
    ghost use Rattle.std.specs.Prelude.{◌≡◌, ◌+◌, ◌%◌};

    // The first row follows the fourth.
    fn next(self) -> Turn
        ensures { result.row ≡ (self.row + 1) % 4 }
    {
        Turn {
            row: (self.row + 1) % 4,
        }
    }
}

impl Rows {
    ghost use Rattle.std.specs.Prelude.{◌≡◌, ◌≤◌, IfSome, MatchOption, Ok, None, Some, length};
    ghost use Rattle.device.specs.Answer.{Answer};
    ghost use Rattle.layers.specs.Cache.{empty, find, keep};
    ghost use Rattle.cache.specs.Rows.{table_of};

    pub(crate) fn empty() -> Rows
        ensures { table_of result ≡ empty }
    {
        Rows {
            rows: [Row::empty(); 4],
            turn: Turn { row: 0 },
        }
    }

    // The bytes that a row has for a question.
    pub(crate) fn find(&self, question: &Question) -> Option<&[u8]>
        ensures found { MatchOption result (find question.now (table_of self.now).rows ≡ None) (λ bytes. find question.now (table_of self.now).rows ≡ Some bytes.now) }
        ensures long { IfSome result (λ bytes. length bytes.now ≡ question.now.length) }
    {
        for row in &self.rows {
            if let Some(bytes) = row.get(question) {
                return Some(bytes);
            }
        }
        None
    }

    // An accepted answer goes into the next row in turn, unless it is too long for one.
    pub(crate) fn keep(&mut self, question: Question, bytes: &[u8])
        requires { length bytes.now ≡ question.length }
        ensures { table_of self.new ≡ keep {R = Unit {0}} (table_of self.old) question (Ok bytes.now) }
    {
        if bytes.len() > BLOCK_LIMIT {
            return;
        }
        let row = &mut self.rows[self.turn.row];
        row.put(question, bytes);
        self.turn = self.turn.next();
    }
}
