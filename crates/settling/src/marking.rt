// The marks of a part, on each row by the marks of lower parts alone, so that the compiler can take many rows at once.
ghost use Rattle.std.specs.Prelude.{ℕ, Bool, ◌≡◌, ◌≤◌, ◌<◌};
ghost use Rattle.words.specs.inner.Words.{most_parts, most_rows, Room};
ghost use Rattle.words.specs.inner.Written.{Marked};
ghost use Rattle.settling.specs.inner.Scratch.{Lower};

use words::parts::put_mark;

// On each of the first `count` rows part `i` has the mark that is given there, by the marks of the lower parts.
#[inline(always)]
pub fn put_each<F: Fn(&[u8], usize) -> bool>(scratch: &mut [u8], i: usize, count: usize, mark: F)
    requires { (Room scratch.old) × (i < most_parts) × (count ≤ most_rows) × ((s : _) (row : ℕ) → Room s.now → row < count → F.pre mark s row) }
    ensures { (given : ℕ → Bool) → ((s : _) (row : ℕ) (x : Bool) → Lower i scratch.old s.now → row < count → F.post mark s row x → x ≡ given row) → Marked scratch.old scratch.new i 0 count given }
{
    for row in 0..count {
        let it = mark(scratch, row);
        put_mark(scratch, i, row, it);
    }
}
