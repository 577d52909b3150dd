// One test of many numbers. Each goes through all numbers and leaves none early, so that the compiler can take many at once.
ghost use Rattle.std.specs.Prelude.{◌≡◌, ℕ, Bool, ◌<◌};
ghost use Rattle.table.specs.inner.Tables.{all_below};

// The numbers that are taken at once.
const BLOCK: usize = 16;

// The test holds of every number below `count`.
#[inline(always)]
pub fn all_hold<F: Fn(usize) -> bool>(count: usize, holds: F) -> bool
    requires { (k : ℕ) → k < count → F.pre holds k }
    ensures { (test : ℕ → Bool) → ((k : ℕ) (x : Bool) → k < count → F.post holds k x → x ≡ test k) → result ≡ all_below test count }
{
    let mut all = true;
    for k in 0..count {
        all &= holds(k);
    }
    all
}

// As `all_hold`, block after block. The last block is taken back from the end, some numbers a second time, so that few are left to be
// taken alone.
#[inline(always)]
pub fn all_hold_in_blocks<F: Fn(usize) -> bool>(count: usize, holds: F) -> bool
    requires { (k : ℕ) → k < count → F.pre holds k }
    ensures { (test : ℕ → Bool) → ((k : ℕ) (x : Bool) → k < count → F.post holds k x → x ≡ test k) → result ≡ all_below test count }
{
    if count < BLOCK {
        return all_hold(count, holds);
    }
    let last = count - BLOCK;
    all_hold(count - count % BLOCK, &holds) & all_hold(BLOCK, |k| holds(last + k))
}
