// The verdict on two numbers that each grow by a fixed step on every pass, from their first pass on.
ghost use Rattle.std.specs.Prelude.{◌≡◌, cond, ◌&&◌, ◌-◌, ◌%◌, ltb, eqb};
ghost use Rattle.verdict.specs.Lines.{judge_less, judge_equal};
ghost use Rattle.verdict.specs.Comparisons.{judge_lines};
ghost use Rattle.verdict.specs.inner.Lifted.{line_of};

use crate::weeks::decide_within;
use crate::{Relation, Verdict};

// A line, lifted so that no number is below 0: `at` is the number on the first pass, lifted as the values of readings are, `step`
// what it grows by on each pass, as a field is kept.
#[derive(Clone, Copy)]
pub struct LiftedLine {
    pub at: u64,
    pub step: u64,
}

fn decide_less(x: LiftedLine, y: LiftedLine) -> Verdict
    ensures { result ≡ judge_less (line_of x) (line_of y) }
{
    if x.at < y.at {
        if y.step < x.step {
            return Verdict::Changes;
        }
        return Verdict::AlwaysTrue;
    }
    if x.step < y.step {
        return Verdict::Changes;
    }
    Verdict::AlwaysFalse
}

// Two numbers are a gap apart at first, and the one behind grows by `steeper` on each pass, the other by `other`: on one pass they are
// the same where it gains and its gain divides the gap.
fn decide_meeting(gap: u64, steeper: u64, other: u64) -> Verdict
    ensures { result ≡ cond (ltb other steeper && eqb (gap % (steeper - other)) 0) Verdict.Changes Verdict.AlwaysFalse }
{
    if other < steeper && gap % (steeper - other) == 0 {
        return Verdict::Changes;
    }
    Verdict::AlwaysFalse
}

// Which of two lines is behind is told first, so that the remainder stands in one place: the function is then small enough for the
// compiler to put it into its callers.
fn decide_equal(x: LiftedLine, y: LiftedLine) -> Verdict
    ensures { result ≡ judge_equal (line_of x) (line_of y) }
{
    if x.at == y.at {
        if x.step == y.step {
            return Verdict::AlwaysTrue;
        }
        return Verdict::Changes;
    }
    let (behind, ahead) = if x.at < y.at { (x, y) } else { (y, x) };
    decide_meeting(ahead.at - behind.at, behind.step, ahead.step)
}

// The verdict on a comparison of two lines.
pub fn decide(relation: Relation, x: LiftedLine, y: LiftedLine) -> Verdict
    ensures { result ≡ judge_lines relation (line_of x) (line_of y) }
{
    match relation {
        Relation::Below => decide_less(x, y),
        Relation::Same => decide_equal(x, y),
        Relation::Within(n) => decide_within(n, x, y),
        Relation::Pinned => Verdict::AlwaysFalse,
    }
}
