// Sweeps over two columns with tops, and the marks of a part. Where neither has a top they are the sweeps over the numbers and the
// lines themselves, and of lines also where none of them comes to its top; else each row is looked at under the tops.
ghost use Rattle.std.specs.Prelude.{◌≡◌, true, ◌+◌, ◌≤◌, ◌<◌, pos, length};
ghost use Rattle.cltlb.specs.Run.{is_pinned, under};
ghost use Rattle.fields.specs.inner.Biased.{patterns, bias, unbiased};
ghost use Rattle.plan.specs.inner.Sizes.{most_array};
ghost use Rattle.verdict.specs.Comparisons.{tested};
ghost use Rattle.verdict.specs.Tops.{judge_under};
ghost use Rattle.lanes.specs.inner.Agreement.{line_from, verdict_agrees, lies_below, StayFree};
ghost use Rattle.lanes.specs.inner.Columns.{Reaches};
ghost use Rattle.lanes.specs.inner.Stretches.{all_seen_agree, all_under_agree};

use crate::columns::{Column, drift, number};
use crate::stretch::{Lines, Stretch};
use crate::sweeps::{lines_agree, numbers_compare, values_agree, verdict_agrees};
use fields::BIAS;
use plan::lookup::LAST_PASS;
use table::all::all_hold;
use table::sweeps::agree;
use verdict::Relation;
use verdict::lines::LiftedLine;
use verdict::rows::compare_pinned;
use verdict::tops::decide_under;

// What a field is lifted more by as a value.
const LIFT: u64 = LAST_PASS * BIAS;

// A number kept without a sign is at or above its top, 0 being no top.
fn is_pinned(top: u64, a: u64) -> bool
    requires { top < bias }
    ensures { result ≡ is_pinned (pos top) (unbiased a) }
{
    !(top == 0) & (top + BIAS <= a)
}

// How two numbers kept without a sign compare, each under its top.
pub fn seen_compare(relation: Relation, s: u64, a: u64, t: u64, b: u64) -> bool
    requires { (s < bias) × (t < bias) }
    ensures { result ≡ tested relation (under (pos s) (unbiased a)) (under (pos t) (unbiased b)) }
{
    let left = is_pinned(s, a);
    let right = is_pinned(t, b);
    (left & compare_pinned(relation)) | (!(left | right) & numbers_compare(relation, a, b))
}

// The marks say how what is seen in two columns compares.
fn topped_values(stretch: &Stretch, relation: Relation) -> bool
    requires { (stretch.now.x.top < bias) × (stretch.now.y.top < bias) }
    ensures { result ≡ all_seen_agree relation stretch.now }
{
    let x = stretch.x;
    let y = stretch.y;
    all_hold(stretch.count, |k| {
        let a = stretch.left_number(k);
        let b = stretch.right_number(k);
        agree(stretch.mark(k), seen_compare(relation, x.top, a, y.top, b))
    })
}

// The mark of a row says on every pass how a line that begins at a and gains d on each pass compares with one from b that gains e, each
// under its top.
fn under_agrees(
    relation: Relation,
    mark: bool,
    s: u64,
    a: u64,
    d: u64,
    t: u64,
    b: u64,
    e: u64,
) -> bool
    requires { (s < bias) × (a < patterns) × (t < bias) × (b < patterns) }
    ensures { result ≡ verdict_agrees (judge_under relation (pos s) (line_from a d) (pos t) (line_from b e)) mark }
{
    let x = LiftedLine {
        at: a + LIFT,
        step: d,
    };
    let y = LiftedLine {
        at: b + LIFT,
        step: e,
    };
    verdict_agrees(decide_under(relation, s, x, t, y), mark)
}

// The marks say on every pass how the lines of two columns compare under their tops.
fn topped_lines(lines: &Lines, relation: Relation) -> bool
    requires { (lines.now.stretch.x.top < bias) × (lines.now.stretch.y.top < bias) }
    ensures { result ≡ all_under_agree relation lines.now }
{
    let stretch = &lines.stretch;
    let x = stretch.x;
    let y = stretch.y;
    all_hold(stretch.count, |k| {
        let a = stretch.left_number(k);
        let d = lines.left_drift(k);
        let b = stretch.right_number(k);
        let e = lines.right_drift(k);
        under_agrees(relation, stretch.mark(k), x.top, a, d, y.top, b, e)
    })
}

// A line that begins at a and gains d on each pass lies below its top, and does not rise.
fn lies_below(top: u64, a: u64, d: u64) -> bool
    requires { top < bias }
    ensures { result ≡ lies_below (pos top) (line_from a d) }
{
    (a < top + BIAS) & (d <= BIAS)
}

// No line of a column comes to its top: each lies below it and does not rise.
fn stays_free(values: &[u8], drifts: &[u8], x: Column, count: usize) -> bool
    requires { (Reaches values.now x count) × (length values.now ≤ most_array) × (Reaches drifts.now x count) × (length drifts.now ≤ most_array) × (x.top < bias) }
    ensures { result ≡ true → StayFree values.now drifts.now x count }
{
    if x.top == 0 {
        return true;
    }
    all_hold(
        count,
        |k| lies_below(x.top, number(values, x, k), drift(drifts, x, k)),
    )
}

// The marks say how what is seen in two columns compares.
pub fn seen_agree(stretch: &Stretch, relation: Relation) -> bool
    requires { (stretch.now.x.top < bias) × (stretch.now.y.top < bias) }
    ensures { result ≡ all_seen_agree relation stretch.now }
{
    if stretch.x.top == 0 {
        if stretch.y.top == 0 {
            return values_agree(stretch, relation);
        }
    }
    topped_values(stretch, relation)
}

// The marks say on every pass how the lines of two columns compare under their tops.
pub fn under_agree(lines: &Lines, relation: Relation) -> bool
    requires { (lines.now.stretch.x.top < bias) × (lines.now.stretch.y.top < bias) }
    ensures { result ≡ all_under_agree relation lines.now }
{
    let stretch = &lines.stretch;
    if stays_free(stretch.values, lines.drifts, stretch.x, stretch.count) {
        if stays_free(stretch.values, lines.drifts, stretch.y, stretch.count) {
            return lines_agree(lines, relation);
        }
    }
    topped_lines(lines, relation)
}
