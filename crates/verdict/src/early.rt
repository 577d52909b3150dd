// Passes that are looked at one by one, put in front of a verdict.
ghost use Rattle.std.specs.Prelude.{◌≡◌, ℕ, Bool, cond, ◌+◌, ◌*◌, ◌≤◌, ◌<◌};
ghost use Rattle.plan.specs.inner.Sizes.{all_rows};
ghost use Rattle.verdict.specs.Rows as rows;
ghost use Rattle.verdict.specs.inner.Reach.{latest_from};

use crate::Verdict;
use plan::sizes::Sizes;

// The verdict on what is true on all passes, or on none.
pub fn always(truth: bool) -> Verdict
    ensures { result ≡ cond truth Verdict.AlwaysTrue Verdict.AlwaysFalse }
{
    if truth {
        Verdict::AlwaysTrue
    } else {
        Verdict::AlwaysFalse
    }
}

// One more pass in front.
pub fn join(truth: bool, later: Verdict) -> Verdict
    ensures { result ≡ rows.join truth later }
{
    if later == always(truth) {
        later
    } else {
        Verdict::Changes
    }
}

// The first n passes, looked at one by one from the last of them back, in front of the verdict on the later ones.
#[inline(always)]
pub fn join_first<F: Fn(usize) -> bool>(n: usize, later: Verdict, test: F) -> Verdict
    requires { (k : ℕ) → k < n → F.pre test k }
    ensures { (truth : ℕ → Bool) → ((k : ℕ) (x : Bool) → k < n → F.post test k x → x ≡ truth k) → result ≡ rows.join_first truth n later }
{
    let mut verdict = later;
    for k in (0..n).rev() {
        verdict = join(test(k), verdict);
    }
    verdict
}

// The number of passes, from a position of the cycle on, on which a term that reaches `back` positions back may be read before the
// cycle.
pub fn early_passes(sizes: Sizes, row: usize, back: usize) -> usize
    requires { (1 ≤ sizes.cycle) × (all_rows sizes ≤ 256) × (sizes.start ≤ row) × (row ≤ latest_from sizes) × (back ≤ 4) }
    ensures { (sizes.start + back ≤ row + result * sizes.cycle) × (result ≤ 4) }
{
    let inside = sizes.start + back;
    (0..4)
        .find(|n| inside <= row + n * sizes.cycle)
        .unwrap_or(4)
}
