// Whether passes can be laid out. A reading is a straight line in the pass, and fits on pass 0: of the rows that are laid out then
// only those that come last are looked at.
ghost use Rattle.std.specs.Prelude.{◌≡◌, ◌+◌, ◌≤◌, ◌<◌};
ghost use Rattle.fields.specs.TwosComplement.{signed_fits};
ghost use Rattle.plan.specs.inner.Lifted.{passes, lowered};
ghost use Rattle.plan.specs.inner.Sizes.{all_rows};
ghost use Rattle.laid_out.specs.LaidOut.{can_be_laid};
ghost use Rattle.laid_out.specs.inner.LastCycle.{row_too_large, cycle_too_large};

use crate::numbers::LEAST;
use fields::BIAS;
use plan::Plan;

// The most rows of a plan but for its lead-in.
pub const MOST_ROWS: usize = 256;

// The end of the numbers of 32 bits, lifted as values are.
const END: u64 = LEAST + 2 * BIAS;

// A value fits 32 bits.
fn fits_word(value: u64) -> bool
    ensures { result ≡ signed_fits 4 (lowered value) }
{
    LEAST <= value && value < END
}

// The reading of some channel on a row and a pass takes more than 32 bits.
fn row_too_large(plan: &Plan, row: usize, pass: usize) -> bool
    requires { (row < all_rows plan.now.sizes) × (pass < passes) }
    ensures { result ≡ row_too_large plan.now.bytes.now row pass }
{
    (0..plan.sizes.channels).any(|channel| !fits_word(plan.number_at(channel, row, pass)))
}

// So on some row of the cycle.
fn cycle_too_large(plan: &Plan, pass: usize) -> bool
    requires { pass < passes }
    ensures { result ≡ cycle_too_large plan.now.bytes.now pass }
{
    let sizes = plan.sizes;
    (0..sizes.cycle).any(|j| row_too_large(plan, sizes.start + j, pass))
}

// With n passes laid out the plan can be written.
pub fn can_be_laid(plan: &Plan, n: usize) -> bool
    requires { n ≤ 256 }
    ensures { result ≡ can_be_laid plan.now.bytes.now n }
{
    let sizes = plan.sizes;
    sizes.start + (n + 1) * sizes.cycle <= MOST_ROWS && !cycle_too_large(plan, n)
}
