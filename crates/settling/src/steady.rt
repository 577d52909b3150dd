// The passes to try next where a part does not close. Those on which a comparison changes are passed over, without marks.
ghost use Rattle.std.specs.Prelude.{◌+◌, ◌≤◌, ◌<◌};
ghost use Rattle.verdict.specs.inner.Reach.{TermsFit};
ghost use Rattle.words.specs.inner.Words.{most_rows};
ghost use Rattle.settling.specs.inner.Scratch.{Unsteady, NoneSettles};

use crate::comparisons::steady;
use cltlb::View;
use inputs::Inputs;
use laid_out::fits::MOST_ROWS;
use plan::Plan;
use verdict::Comparison;
use verdict::atoms::comparison_of;

// The fewest passes, from `passes` on, from which on a comparison does not change, or the fewest that take too many rows. What does
// not change stays so: the steps ahead double, and then the number is enclosed.
fn steady_after(plan: &Plan, comparison: Comparison, passes: usize) -> usize
    requires { (TermsFit plan.now.sizes comparison) × (passes ≤ most_rows) }
    ensures { (passes ≤ result) × (result ≤ most_rows) × (Unsteady plan.now.bytes.now plan.now.sizes comparison passes result) }
{
    let sizes = plan.sizes;
    let start = sizes.start;
    let cycle = sizes.cycle;
    let mut low = passes;
    let mut high = (MOST_ROWS - start) / cycle;
    let mut step: usize = 0;
    // No `for`: the two ends come together.
    while low < high {
        let ahead = step.min((high - low) / 2);
        let k = low + ahead;
        if steady(plan, comparison, start + k * cycle) {
            high = k;
        } else {
            low = k + 1;
            step = 2 * ahead + 1;
        }
    }
    low
}

// Part `i` of a rule of `n` parts does not close after so many passes: the number of passes to try next.
pub fn next_passes(inputs: &Inputs, passes: usize, i: usize) -> usize
    requires { (i < inputs.now.parts) × (passes < most_rows) }
    ensures { (passes < result) × (result ≤ most_rows) × (NoneSettles inputs.now.rule.now inputs.now.plan.bytes.now (passes + 1) result) }
{
    let Ok(part) = rule::take(inputs.rule, i) else {
        return passes + 1;
    };
    let View::Atom(atom) = cltlb::view_of(part) else {
        return passes + 1;
    };
    steady_after(&inputs.plan, comparison_of(atom), passes + 1)
}
