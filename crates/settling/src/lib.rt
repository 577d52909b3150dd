// Settling: the fewest passes of a plan's cycle are laid out as start rows after which every part of a rule closes.
#![tactic(auto)]

pub mod comparisons;
pub mod copies;
pub mod marking;
pub mod operators;
pub mod parts;
pub mod search;
pub mod steady;

ghost use Rattle.std.specs.Prelude.{◌≡◌};
ghost use Rattle.settling.specs.Settle.{settle_of, laid_after, scratch_after};
ghost use Rattle.settling.specs.Promise.{SettlePromise};

use crate::search::fewest_passes;
use inputs::Inputs;
use laid_out::writing::{MOST_PLAN, put_layout};
use refusal::Refusal;
use table::fills::clear;

// The bytes of the scratch, a word for each row.
pub const SCRATCH_LENGTH: usize = 2048;

// Settles a plan for a rule of `n` parts, which clear 1 to 6. Nothing is written before both lengths are known to be right, and the
// new plan only when the passes are known.
fn settle_plan(inputs: &Inputs, laid: &mut [u8], scratch: &mut [u8]) -> Result<usize, Refusal>
    ensures { (result ≡ settle_of inputs.now.rule.now inputs.now.plan.bytes.now laid.old scratch.old) × (laid.new ≡ laid_after inputs.now.rule.now inputs.now.plan.bytes.now laid.old scratch.old) × (scratch.new ≡ scratch_after inputs.now.rule.now inputs.now.plan.bytes.now laid.old scratch.old) }
{
    if laid.len() != MOST_PLAN {
        return Err(Refusal::BufferLength);
    }
    if scratch.len() != SCRATCH_LENGTH {
        return Err(Refusal::BufferLength);
    }
    let found = fewest_passes(inputs, scratch);
    clear(scratch);
    if let Ok(passes) = found {
        put_layout(laid, &inputs.plan, passes);
    }
    found
}

// The plan with the fewest passes laid out after which every part of the rule closes, and how many they are, or the first refusal that
// applies: 1 to 6, 13, then 15.
pub fn settle(
    rule: &[u8],
    plan: &[u8],
    laid: &mut [u8],
    scratch: &mut [u8],
) -> Result<usize, Refusal>
    ensures { SettlePromise rule.now plan.now laid.old scratch.old laid.new scratch.new result }
{
    let inputs = inputs::read_inputs(rule, plan)?;
    settle_plan(&inputs, laid, scratch)
}
