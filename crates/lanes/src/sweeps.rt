// Sweeps over two columns and the marks of a part. Each goes through all its rows and leaves none early, so that the compiler can
// take many at once; but for equalities of lines that drift, where each row may need a remainder.
ghost use Rattle.std.specs.Prelude.{◌≡◌};
ghost use Rattle.table.specs.inner.Tables.{all_below};
ghost use Rattle.fields.specs.inner.Biased.{unbiased};
ghost use Rattle.verdict.specs.Comparisons.{test_of};
ghost use Rattle.verdict.specs.declared.Relation.TheVariants.{Below, Same};
ghost use Rattle.verdict.specs.Lines.{judge_less, judge_equal};
ghost use Rattle.lanes.specs.inner.Agreement.{line_from, verdict_agrees, stays};
ghost use Rattle.lanes.specs.inner.Columns.{line_in};
ghost use Rattle.lanes.specs.inner.Stretches.{all_values_agree, all_lines_agree};

use crate::stretch::{Lines, Stretch};
use crate::weeks::{within_lines, within_values};
use table::all::all_hold;
use table::sweeps::{agree, none_marked};
use verdict::weeks::minutes_after;
use verdict::{Relation, Verdict};

// How two numbers kept without a sign compare.
pub fn numbers_compare(relation: Relation, a: u64, b: u64) -> bool
    ensures { result ≡ test_of relation (unbiased a) (unbiased b) }
{
    match relation {
        Relation::Below => a < b,
        Relation::Same => a == b,
        Relation::Within(minutes) => minutes_after(a, b) < minutes,
        Relation::Pinned => false,
    }
}

// The marks say whether the left number is below the right one.
fn less_values(stretch: &Stretch) -> bool
    ensures { result ≡ all_values_agree Below stretch.now }
{
    all_hold(
        stretch.count,
        |k| agree(
            stretch.mark(k),
            stretch.left_number(k) < stretch.right_number(k),
        ),
    )
}

// The marks say whether the two numbers are the same.
fn same_values(stretch: &Stretch) -> bool
    ensures { result ≡ all_values_agree Same stretch.now }
{
    all_hold(
        stretch.count,
        |k| agree(
            stretch.mark(k),
            stretch.left_number(k) == stretch.right_number(k),
        ),
    )
}

// The mark of a row says whether a line that begins at a and gains d on each pass is below one from b that gains e, on every pass.
fn less_agrees(mark: bool, a: u64, d: u64, b: u64, e: u64) -> bool
    ensures { result ≡ verdict_agrees (judge_less (line_from a d) (line_from b e)) mark }
{
    let less = a < b;
    agree(mark, less) & (!(less & (e < d)) & !(!less & (d < e)))
}

// The marks say on every pass whether the left line is below the right one.
fn less_lines(lines: &Lines) -> bool
    ensures { result ≡ all_lines_agree Below lines.now }
{
    let stretch = &lines.stretch;
    all_hold(
        stretch.count,
        |k| less_agrees(
            stretch.mark(k),
            stretch.left_number(k),
            lines.left_drift(k),
            stretch.right_number(k),
            lines.right_drift(k),
        ),
    )
}

// Whether two such lines are the same is on every pass what it is at first.
fn same_stays(a: u64, d: u64, b: u64, e: u64) -> bool
    ensures { result ≡ stays (judge_equal (line_from a d) (line_from b e)) }
{
    if d == e {
        return true;
    }
    if a < b {
        if e < d {
            return (b - a) % (d - e) != 0;
        }
        return true;
    }
    if b < a {
        if d < e {
            return (a - b) % (e - d) != 0;
        }
        return true;
    }
    false
}

// Whether the two lines are the same is on every pass what it is at first, on all rows.
fn same_stay(lines: &Lines) -> bool
    ensures { result ≡ all_below (λ k. stays (judge_equal (line_in lines.now.stretch.values.now lines.now.drifts.now lines.now.stretch.x k) (line_in lines.now.stretch.values.now lines.now.drifts.now lines.now.stretch.y k))) lines.now.stretch.count }
{
    let stretch = &lines.stretch;
    for k in 0..stretch.count {
        if !same_stays(
            stretch.left_number(k),
            lines.left_drift(k),
            stretch.right_number(k),
            lines.right_drift(k),
        ) {
            return false;
        }
    }
    true
}

// A verdict that says on every pass what the mark says.
pub fn verdict_agrees(verdict: Verdict, mark: bool) -> bool
    ensures { result ≡ verdict_agrees verdict mark }
{
    match verdict {
        Verdict::AlwaysTrue => mark,
        Verdict::AlwaysFalse => !mark,
        Verdict::Changes => false,
    }
}

// The marks say how the two numbers compare.
pub fn values_agree(stretch: &Stretch, relation: Relation) -> bool
    ensures { result ≡ all_values_agree relation stretch.now }
{
    match relation {
        Relation::Below => less_values(stretch),
        Relation::Same => same_values(stretch),
        Relation::Within(minutes) => within_values(stretch, minutes),
        Relation::Pinned => none_marked(stretch.table, stretch.m, stretch.count),
    }
}

// The marks say on every pass how the two lines compare.
pub fn lines_agree(lines: &Lines, relation: Relation) -> bool
    ensures { result ≡ all_lines_agree relation lines.now }
{
    let stretch = &lines.stretch;
    match relation {
        Relation::Below => less_lines(lines),
        Relation::Same => {
            if same_values(stretch) {
                same_stay(lines)
            } else {
                false
            }
        }
        Relation::Within(minutes) => within_lines(lines, minutes),
        Relation::Pinned => none_marked(stretch.table, stretch.m, stretch.count),
    }
}
