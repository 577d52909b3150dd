// The mark of a part on a row.
ghost use Rattle.std.specs.Prelude.{◌≡◌, ◌+◌, ◌-◌, ◌≤◌, ◌<◌};
ghost use Rattle.words.specs.inner.Words.{most_parts, most_rows, mark_at, Room};
ghost use Rattle.words.specs.inner.Written.{Marked};

use crate::bits::{bit, with_bit};
use crate::rows::{put_word, word_at};

pub fn mark_at(scratch: &[u8], part: usize, row: usize) -> bool
    requires { (Room scratch.now) × (part < most_parts) × (row < most_rows) }
    ensures { result ≡ mark_at scratch.now part row }
{
    bit(word_at(scratch, row), part)
}

// The marks of lower parts stay.
pub fn put_mark(scratch: &mut [u8], part: usize, row: usize, mark: bool)
    requires { (Room scratch.old) × (part < most_parts) × (row < most_rows) }
    ensures { Marked scratch.old scratch.new part row (row + 1) (λ _. mark) }
{
    let word = word_at(scratch, row);
    put_word(scratch, row, with_bit(word, part, mark));
}

// The marks of a part on the rows from `from` to below `end`, each that of the row a cycle before it.
pub fn repeat_marks(scratch: &mut [u8], part: usize, cycle: usize, from: usize, end: usize)
    requires { (Room scratch.old) × (part < most_parts) × (1 ≤ cycle) × (cycle ≤ from) × (from ≤ end) × (end ≤ most_rows) }
    ensures { Marked scratch.old scratch.new part from end (λ row. mark_at scratch.new part (row - cycle)) }
{
    for row in from..end {
        let mark = mark_at(scratch, part, row - cycle);
        put_mark(scratch, part, row, mark);
    }
}
