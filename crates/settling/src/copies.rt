// The marks of an operator that are those of another part on the rows beside, in words: each row by itself, so that the compiler can
// take many at once. `i` is the part's number, and `a` is lower.
ghost use Rattle.std.specs.Prelude.{◌≡◌, ◌+◌, ◌-◌, ◌≤◌, ◌<◌};
ghost use Rattle.std.specs.Bool.{beq};
ghost use Rattle.plan.specs.inner.Sizes.{all_rows};
ghost use Rattle.marks.specs.declared.operators.Beside.TheVariants.{After, Before};
ghost use Rattle.marks.specs.Equations.{mark_beside};
ghost use Rattle.words.specs.inner.Words.{most_parts, most_rows, mark_at, Room};
ghost use Rattle.words.specs.inner.Written.{Marked};
ghost use Rattle.settling.specs.inner.Scratch.{Tried};

use crate::marking::put_each;
use plan::sizes::Sizes;
use words::parts::{mark_at, put_mark};

// X: so on all rows; after the last one comes row P.
pub fn mark_next(scratch: &mut [u8], laid: Sizes, i: usize, a: usize)
    requires { (Room scratch.old) × (i < most_parts) × (a < i) × (1 ≤ laid.cycle) × (all_rows laid ≤ most_rows) }
    ensures { Marked scratch.old scratch.new i 0 (all_rows laid) (mark_beside laid.start laid.cycle After (mark_at scratch.old a)) }
{
    let last = laid.start + laid.cycle - 1;
    let end = mark_at(scratch, a, laid.start);
    put_each(scratch, i, last, |marks, row| mark_at(marks, a, row + 1));
    put_mark(scratch, i, last, end);
}

// On each of the rows from 1 to below `count` the mark of part `a` on the row before, the last one first, since upward each row would
// read the word that was just written.
fn mark_before(scratch: &mut [u8], i: usize, a: usize, count: usize)
    requires { (Room scratch.old) × (i < most_parts) × (a < i) × (1 ≤ count) × (count ≤ most_rows) }
    ensures { Marked scratch.old scratch.new i 1 count (λ row. mark_at scratch.old a (row - 1)) }
{
    for row in (1..count).rev() {
        let mark = mark_at(scratch, a, row - 1);
        put_mark(scratch, i, row, mark);
    }
}

// The mark of part `a` on the row before a row; `first` counts before row 0.
fn before(scratch: &[u8], a: usize, first: bool, row: usize) -> bool
    requires { (Room scratch.now) × (a < most_parts) × (row < most_rows) }
    ensures { result ≡ mark_beside 0 0 (Before first) (mark_at scratch.now a) row }
{
    if row == 0 {
        first
    } else {
        mark_at(scratch, a, row - 1)
    }
}

// Y or Z, before row 0 of which `first` counts. It closes where what comes before row P the first time and row W - 1, which comes before
// it later on, have the same mark; its marks are made only then.
pub fn try_before(scratch: &mut [u8], laid: Sizes, i: usize, a: usize, first: bool) -> bool
    requires { (Room scratch.old) × (i < most_parts) × (a < i) × (1 ≤ laid.cycle) × (all_rows laid ≤ most_rows) }
    ensures { Tried scratch.old scratch.new i (all_rows laid) (mark_beside 0 0 (Before first) (mark_at scratch.old a)) (beq (mark_beside 0 0 (Before first) (mark_at scratch.old a) laid.start) (mark_at scratch.old a (laid.start + laid.cycle - 1))) result }
{
    let p = laid.start;
    let count = p + laid.cycle;
    if before(scratch, a, first, p) != mark_at(scratch, a, count - 1) {
        return false;
    }
    mark_before(scratch, i, a, count);
    put_mark(scratch, i, 0, first);
    true
}
