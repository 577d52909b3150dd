// The sizes and the numbers of a plan with n passes of its cycle laid out. Numbers are lifted, as values are.
ghost use Rattle.std.specs.Prelude.{◌≡◌, ◌≤◌, ◌<◌};
ghost use Rattle.fields.specs.TwosComplement.{pattern_of};
ghost use Rattle.fields.specs.inner.Ranges.{SignedFits};
ghost use Rattle.plan.specs.inner.Lifted.{lowered};
ghost use Rattle.plan.specs.inner.Sizes.{all_rows, most_stored};
ghost use Rattle.laid_out.specs.LaidOut.{laid_reading, laid_drift};
ghost use Rattle.laid_out.specs.inner.LaidSizes.{laid_sizes};
ghost use Rattle.laid_out.specs.inner.LaidNumbers.{laid_number};

use fields::{BIAS, PATTERNS};
use plan::Plan;
use plan::lookup::{LAST_PASS, ZERO};
use plan::positions::{pass_of, row_of};
use plan::sizes::Sizes;

// The least number of 32 bits, lifted as values are: what a field, which is biased, is lifted more by as a value.
pub const LEAST: u64 = LAST_PASS * BIAS;

// n cycles more of start rows.
pub fn laid_sizes(sizes: Sizes, n: usize) -> Sizes
    requires { (n < 256) × (all_rows sizes ≤ 256) }
    ensures { result ≡ laid_sizes sizes n }
{
    Sizes {
        channels: sizes.channels,
        start: sizes.start + n * sizes.cycle,
        cycle: sizes.cycle,
        lead: sizes.lead,
    }
}

// The reading of a channel on the k-th row that is stored: in the lead-in what is stored, behind it that at the row's position.
fn laid_reading(plan: &Plan, k: usize, channel: usize) -> u64
    requires { (k < most_stored) × (channel < plan.now.sizes.channels) }
    ensures { lowered result ≡ laid_reading plan.now.bytes.now k channel }
{
    let sizes = plan.sizes;
    if k < sizes.lead {
        return plan.stored_number(channel, k, 0);
    }
    let t = k - sizes.lead;
    plan.number_at(channel, row_of(sizes, t), pass_of(sizes, t))
}

// Its drift: none before the cycle.
fn laid_drift(plan: &Plan, n: usize, k: usize, channel: usize) -> u64
    requires { (n < 256) × (k < most_stored) × (channel < plan.now.sizes.channels) }
    ensures { lowered result ≡ laid_drift plan.now.bytes.now n k channel }
{
    let sizes = plan.sizes;
    if k < sizes.lead + (sizes.start + n * sizes.cycle) {
        return ZERO;
    }
    plan.drift_at(channel, row_of(sizes, k - sizes.lead)) + LEAST
}

// The two arrays of a plan.
#[derive(Clone, Copy)]
pub enum Array {
    Readings,
    Drifts,
}

// The number of an array.
pub fn laid_number(plan: &Plan, n: usize, array: Array, k: usize, channel: usize) -> u64
    requires { (n < 256) × (k < most_stored) × (channel < plan.now.sizes.channels) }
    ensures { lowered result ≡ laid_number plan.now.bytes.now n array k channel }
{
    match array {
        Array::Readings => laid_reading(plan, k, channel),
        Array::Drifts => laid_drift(plan, n, k, channel),
    }
}

// The pattern of a value that fits 32 bits.
pub fn pattern_of(value: u64) -> u32
    requires { SignedFits 4 (lowered value) }
    ensures { result ≡ pattern_of 4 (lowered value) }
{
    (value % PATTERNS) as u32
}
