// The bytes of a mark table of `n` parts on `w` rows, and refusals 7 and 8.
ghost use Rattle.std.specs.Prelude.{◌≡◌, ◌+◌, ◌*◌, ◌≤◌, ◌<◌};
ghost use Rattle.refusal.specs.First.{in_turn};
ghost use Rattle.table.specs.Layout.{mark_byte, marked, witness_of, bytes_outcome, table_outcome};
ghost use Rattle.table.specs.inner.Tables.{Sized};

use crate::sweeps::all_marks;
use fields::u16_at;
use refusal::Refusal;

// Where the mark of a part on a row lies.
pub fn place(w: usize, part: usize, row: usize) -> usize
    requires { (w ≤ 256) × (part < 64) × (row ≤ 256) }
    ensures { result ≡ 4 + (part * w + row) }
{
    4 + (part * w + row)
}

// The byte of a part on a row.
fn mark_byte(table: &[u8], n: usize, w: usize, part: usize, row: usize) -> u8
    requires { (Sized table.now n w) × (part < n) × (row < w) }
    ensures { result ≡ mark_byte w table.now part row }
{
    table[4 + (part * w + row)]
}

// The mark of a part on a row.
pub fn mark_at(table: &[u8], n: usize, w: usize, part: usize, row: usize) -> bool
    requires { (Sized table.now n w) × (part < n) × (row < w) }
    ensures { result ≡ marked w table.now part row }
{
    mark_byte(table, n, w, part, row) == 1
}

// The witness of a part.
pub fn witness_at(table: &[u8], n: usize, w: usize, part: usize) -> usize
    requires { (Sized table.now n w) × (part < n) }
    ensures { result ≡ witness_of n w table.now part }
{
    u16_at(table, 4 + n * w + 2 * part)
}

// Refusal 8: the lowest part, and its lowest row, whose byte is no mark.
fn check_bytes(table: &[u8], n: usize, w: usize) -> Result<(), Refusal>
    requires { Sized table.now n w }
    ensures { result ≡ in_turn (bytes_outcome w table.now) n }
{
    let mut answer = Ok(());
    'parts: for part in 0..n {
        for row in 0..w {
            if 1 < mark_byte(table, n, w, part, row) {
                answer = Err(Refusal::MarkByte { part, row });
                break 'parts;
            }
        }
    }
    answer
}

// Refusals 7 and 8 of a mark table, in this order, against `n` parts and `w` rows.
pub fn check_table(table: &[u8], n: usize, w: usize) -> Result<(), Refusal>
    requires { (n ≤ 64) × (w ≤ 256) }
    ensures { result ≡ table_outcome n w table.now }
{
    if table.len() < 4 {
        return Err(Refusal::MarkSizes);
    }
    if u16_at(table, 0) != n {
        return Err(Refusal::MarkSizes);
    }
    if u16_at(table, 2) != w {
        return Err(Refusal::MarkSizes);
    }
    if table.len() != 4 + n * w + 2 * n {
        return Err(Refusal::MarkSizes);
    }
    if all_marks(table, 4, n * w) {
        return Ok(());
    }
    check_bytes(table, n, w)
}
