// Which positions are direct for a comparison. `back` is how far back its terms are read at most, `high` the higher code of its two
// shifts, which are the shifts + 4; a constant has the code of no shift.
ghost use Rattle.std.specs.Prelude.{◌≡◌, cond, min, ◌≤◌};
ghost use Rattle.plan.specs.inner.Sizes.{all_rows};
ghost use Rattle.lanes.specs.inner.Ranges.{Divides};

use plan::sizes::Sizes;

// At positions below `before` a term is read before the run; from there up to `numbers` the numbers of the lead-in and of pass 0 tell
// all, and from there up to `end` the lines that begin there. Those from `end` up to W + back, at most eight, are not direct.
#[derive(Clone, Copy)]
pub struct Ranges {
    pub before: usize,
    pub numbers: usize,
    pub end: usize,
}

// How far the numbers tell all, of positions below `inside`: where nothing drifts in the cycle, on all of them.
fn told_by_numbers(still: bool, lines: usize, inside: usize) -> usize
    ensures { result ≡ cond still inside (min lines inside) }
{
    if still { inside } else { lines.min(inside) }
}

pub fn ranges_of(sizes: Sizes, back: usize, high: usize, still: bool) -> Ranges
    requires { (all_rows sizes ≤ 256) × (back ≤ 4) × (high ≤ 8) }
    ensures { Divides sizes back high still result }
{
    let w = sizes.start + sizes.cycle;
    let inside = w.saturating_sub(high.saturating_sub(4));
    let before = back.saturating_sub(sizes.lead).min(w);
    let numbers = before.max(told_by_numbers(still, sizes.start + back, inside));
    let end = numbers.max(inside);
    Ranges {
        before,
        numbers,
        end,
    }
}
