// A comparison on the rows of a layout, which are the first positions of the plan's run.
ghost use Rattle.std.specs.Prelude.{◌≡◌, ◌+◌, ◌*◌, ◌≤◌, ◌<◌};
ghost use Rattle.verdict.specs.Rows.{test_at};
ghost use Rattle.verdict.specs.inner.Reach.{TermsFit};
ghost use Rattle.words.specs.inner.Words.{most_parts, most_rows, Room};
ghost use Rattle.words.specs.inner.Written.{Marked};
ghost use Rattle.settling.specs.inner.Scratch.{changing_from, is_none};

use crate::marking::put_each;
use plan::Plan;
use verdict::rows::{judge_cycle, test_at};
use verdict::{Comparison, is_changes};
use words::parts::repeat_marks;

// On fewer passes testing each mark costs no more than looking whether they repeat.
const FEW_PASSES: usize = 4;

// It changes on no row of the cycle, the first of whose rows is at position `from`.
pub fn steady(plan: &Plan, comparison: Comparison, from: usize) -> bool
    requires { (TermsFit plan.now.sizes comparison) × (plan.now.sizes.start ≤ from) × (from + plan.now.sizes.cycle ≤ most_rows) }
    ensures { result ≡ is_none (changing_from plan.now.bytes.now comparison from plan.now.sizes.cycle) }
{
    let end = from + plan.sizes.cycle;
    for t in from..end {
        if is_changes(judge_cycle(plan, comparison, t)) {
            return false;
        }
    }
    true
}

// The marks of part `i`, at the first `count` positions.
fn put_truths(scratch: &mut [u8], plan: &Plan, comparison: Comparison, i: usize, count: usize)
    requires { (TermsFit plan.now.sizes comparison) × (Room scratch.old) × (i < most_parts) × (count ≤ most_rows) }
    ensures { Marked scratch.old scratch.new i 0 count (test_at plan.now.bytes.now comparison) }
{
    put_each(scratch, i, count, |_, t| test_at(plan, comparison, t));
}

// So on the `count` rows of a layout of so many passes. Where it changes on none of the plan's cycle rows, its marks repeat from there
// on.
pub fn put_marks(
    scratch: &mut [u8],
    plan: &Plan,
    comparison: Comparison,
    i: usize,
    passes: usize,
    count: usize,
)
    requires { (TermsFit plan.now.sizes comparison) × (Room scratch.old) × (i < most_parts) × (count ≤ most_rows) × (count ≡ plan.now.sizes.start + plan.now.sizes.cycle + passes * plan.now.sizes.cycle) }
    ensures { Marked scratch.old scratch.new i 0 count (test_at plan.now.bytes.now comparison) }
{
    let sizes = plan.sizes;
    if passes < FEW_PASSES {
        put_truths(scratch, plan, comparison, i, count);
        return;
    }
    if !steady(plan, comparison, sizes.start) {
        put_truths(scratch, plan, comparison, i, count);
        return;
    }
    let cycle = sizes.cycle;
    let once = sizes.start + cycle;
    put_truths(scratch, plan, comparison, i, once);
    repeat_marks(scratch, i, cycle, once, count);
}
