// The words of the rows.
ghost use Rattle.std.specs.Prelude.{◌≡◌, ◌≤◌, ◌<◌};
ghost use Rattle.words.specs.inner.Words.{most_rows, word_on, Room};
ghost use Rattle.words.specs.inner.Written.{WordPut, RowsRepeated};

use fields::{put_u32, u64_at};

// What the upper four bytes of a word count.
const UPPER: u64 = 4294967296;

// The word of a row.
pub fn word_at(scratch: &[u8], row: usize) -> u64
    requires { (Room scratch.now) × (row < most_rows) }
    ensures { result ≡ word_on scratch.now row }
{
    u64_at(scratch, 8 * row)
}

// A word is written over that of a row.
pub fn put_word(scratch: &mut [u8], row: usize, word: u64)
    requires { (Room scratch.old) × (row < most_rows) }
    ensures { WordPut scratch.old scratch.new row word }
{
    put_u32(&mut scratch[8 * row..], (word % UPPER) as u32);
    put_u32(&mut scratch[8 * row + 4..], (word / UPPER) as u32);
}

// The words of the rows from `from` to below `end`, each that of the row a cycle before it: the marks of all parts at once.
pub fn repeat_rows(scratch: &mut [u8], cycle: usize, from: usize, end: usize)
    requires { (Room scratch.old) × (1 ≤ cycle) × (cycle ≤ from) × (end ≤ most_rows) }
    ensures { RowsRepeated scratch.old scratch.new cycle from end }
{
    for row in from..end {
        let word = word_at(scratch, row - cycle);
        put_word(scratch, row, word);
    }
}
