// The search for the fewest passes. Closing is monotone in the passes, so that parts are gone through once, the lowest first: one that
// does not close asks for more passes, on which the lower parts close too, with marks that repeat.
ghost use Rattle.std.specs.Prelude.{◌≡◌};
ghost use Rattle.settling.specs.Settle.{fewest_passes, laid_by};
ghost use Rattle.words.specs.inner.Words.{Room};

use crate::parts::try_part;
use crate::steady::next_passes;
use inputs::Inputs;
use laid_out::fits::can_be_laid;
use laid_out::numbers::laid_sizes;
use refusal::Refusal;
use words::rows::repeat_rows;

// Of a rule of `n` parts.
pub fn fewest_passes(inputs: &Inputs, scratch: &mut [u8]) -> Result<usize, Refusal>
    requires { Room scratch.old }
    ensures { result ≡ laid_by (fewest_passes inputs.now.rule.now inputs.now.plan.bytes.now) }
{
    let mut passes = 0;
    let mut i = 0;
    // No `for`: a part that does not close is tried again.
    while i < inputs.parts {
        if try_part(inputs, scratch, passes, i) {
            i += 1;
        } else {
            let more = next_passes(inputs, passes, i);
            if !can_be_laid(&inputs.plan, more) {
                return Err(Refusal::NoLayout);
            }
            let laid = laid_sizes(inputs.plan.sizes, passes);
            let cycle = laid.cycle;
            let from = laid.start + cycle;
            repeat_rows(scratch, cycle, from, from + (more - passes) * cycle);
            passes = more;
        }
    }
    Ok(passes)
}
