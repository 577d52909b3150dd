// Refusals 4 to 6.
ghost use Rattle.std.specs.Prelude.{◌≡◌, ◌+◌, ◌<◌};
ghost use Rattle.refusal.specs.First.{at_lowest};
ghost use Rattle.plan.specs.inner.Sizes.{all_stored};
ghost use Rattle.plan.specs.inner.Read.{plan_read};
ghost use Rattle.plan.specs.Refusals as refusals;
ghost use Rattle.plan.specs.Refusals.{drift_refusal};

use crate::Plan;
use crate::sizes::{Sizes, read_sizes};
use fields::BIAS;
use refusal::Refusal;

impl<'a> Plan<'a> {
    // The k-th row that is stored has a drift other than 0.
    fn drifting(&self, k: usize) -> bool
        requires { k < all_stored self.now.sizes }
        ensures { result ≡ refusals.drifting self.now.bytes.now k }
    {
        (0..self.sizes.channels).any(|channel| self.stored_drift(channel, k) != BIAS)
    }

    // The lowest row before the cycle that has a drift other than 0 is refused, the lead-in rows first, each named as row 0.
    fn rows_before_cycle(&self) -> Result<(), Refusal>
        ensures { result ≡ at_lowest (refusals.drifting self.now.bytes.now) (self.now.sizes.lead + self.now.sizes.start) (drift_refusal self.now.sizes.lead) }
    {
        let sizes = self.sizes;
        for k in 0..sizes.lead + sizes.start {
            if self.drifting(k) {
                return Err(Refusal::StartDrift {
                    row: k.saturating_sub(sizes.lead),
                });
            }
        }
        Ok(())
    }
}

// Refusals 4, 5 and 6 of a plan, in this order, against a rule of `v` channels. The rows before the cycle are searched one by one only
// where a look at all of them at once finds a drift.
pub fn check_plan(bytes: &[u8], v: usize) -> Result<Sizes, Refusal>
    ensures { result ≡ plan_read v bytes.now }
{
    let sizes = read_sizes(bytes).ok_or(Refusal::PlanSizes)?;
    if sizes.channels != v {
        return Err(Refusal::Channels);
    }
    let plan = Plan { bytes, sizes };
    if !plan.stored_still(0, sizes.lead + sizes.start) {
        plan.rows_before_cycle()?;
    }
    Ok(sizes)
}
