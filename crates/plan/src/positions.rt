// The row and the pass of a position.
ghost use Rattle.std.specs.Prelude.{◌≡◌, ◌≤◌};
ghost use Rattle.plan.specs.Positions.{row_of, pass_of};
ghost use Rattle.plan.specs.inner.Sizes.{all_rows};

use crate::sizes::Sizes;

pub fn row_of(sizes: Sizes, t: usize) -> usize
    requires { (1 ≤ sizes.cycle) × (all_rows sizes ≤ 256) }
    ensures { result ≡ row_of sizes.start sizes.cycle t }
{
    if t < sizes.start + sizes.cycle {
        t
    } else {
        sizes.start + (t - sizes.start) % sizes.cycle
    }
}

pub fn pass_of(sizes: Sizes, t: usize) -> usize
    requires { (1 ≤ sizes.cycle) × (all_rows sizes ≤ 256) }
    ensures { result ≡ pass_of sizes.start sizes.cycle t }
{
    if t < sizes.start + sizes.cycle {
        0
    } else {
        (t - sizes.start) / sizes.cycle
    }
}
