// A comparison's verdicts held against its marks on all rows, position by position. `lines` is the first position of the cycle from
// which on neither of its terms is read before the cycle: below it a mark has to say what the comparison is at the position, and on
// the cycle from there on, what it is on every pass from the position on. Where both terms are read in the lead-in or on pass 0 a
// position is direct, and is swept over lanes; the others, at most eight, are looked at one by one.
ghost use Rattle.std.specs.Prelude.{◌≡◌, ◌+◌, ◌-◌, ◌≤◌, ◌<◌};
ghost use Rattle.fields.specs.inner.Biased.{unbiased};
ghost use Rattle.plan.specs.inner.Sizes.{all_rows, Fitting};
ghost use Rattle.verdict.specs.inner.Reach.{reach, TermsFit, AsksLeft, latest_from};
ghost use Rattle.table.specs.inner.Tables.{all_below, Sized};
ghost use Rattle.lanes.specs.inner.Lanes.{Lanes};
ghost use Rattle.lanes.specs.inner.Direct.{agrees_on, numbers_say, lines_say, OfPart, DirectRows, LongLanes};
ghost use Rattle.lanes.specs.inner.Positions.{position_says};
ghost use Rattle.lanes.specs.inner.Stretches.{OnRows};
ghost use Rattle.lanes.specs.inner.Still.{landed_number, still_says, Lands, StillPositions};

use crate::columns::{Side, column_of, lane_of, number, side_of};
use crate::ranges::ranges_of;
use crate::stretch::{Lines, Stretch};
use crate::sweeps::verdict_agrees;
use crate::tops::{seen_agree, seen_compare, under_agree};
use cltlb::Term;
use plan::Plan;
use plan::positions::row_of;
use plan::sizes::Sizes;
use table::all::all_hold;
use table::bytes::{mark_at, place};
use table::sweeps::{agree, none_marked};
use verdict::Comparison;
use verdict::rows::{judge_from, test_at};
use verdict::terms::reach_of;

// A comparison that is part `i` of a table of `n` parts, over a plan of these sizes.
#[derive(Clone, Copy)]
pub struct ComparisonPart {
    pub n: usize,
    pub sizes: Sizes,
    pub i: usize,
    pub comparison: Comparison,
}

// How its two terms are read.
#[derive(Clone, Copy)]
pub struct Sides {
    pub left: Side,
    pub right: Side,
}

// The mark of a part says what the comparison is at position t; from `lines` on, on every pass from there on.
fn position_agrees(plan: &[u8], table: &[u8], part: ComparisonPart, lines: usize, t: usize) -> bool
    requires { (Fitting plan.now part.sizes) × (Sized table.now part.n (all_rows part.sizes)) × (part.i < part.n) × (TermsFit part.sizes part.comparison) × (part.sizes.start + reach part.comparison.left ≤ lines) × (part.sizes.start + reach part.comparison.right ≤ lines) × (t ≤ latest_from part.sizes) }
    ensures { result ≡ position_says plan.now table.now part lines t }
{
    let sizes = part.sizes;
    let plan = Plan { bytes: plan, sizes };
    let comparison = part.comparison;
    let w = sizes.start + sizes.cycle;
    let mark = mark_at(table, part.n, w, part.i, row_of(sizes, t));
    if t < lines {
        return agree(mark, test_at(&plan, comparison, t));
    }
    verdict_agrees(judge_from(&plan, comparison, t), mark)
}

// The positions from one up to another, one by one.
fn one_by_one(
    plan: &[u8],
    table: &[u8],
    part: ComparisonPart,
    lines: usize,
    from: usize,
    to: usize,
) -> bool
    requires { (Fitting plan.now part.sizes) × (Sized table.now part.n (all_rows part.sizes)) × (part.i < part.n) × (TermsFit part.sizes part.comparison) × (part.sizes.start + reach part.comparison.left ≤ lines) × (part.sizes.start + reach part.comparison.right ≤ lines) × (from ≤ to) × (to ≤ all_rows part.sizes + 4) }
    ensures { result ≡ all_below (λ k. position_says plan.now table.now part lines (from + k)) (to - from) }
{
    all_hold(
        to - from,
        |k| position_agrees(plan, table, part, lines, from + k),
    )
}

// Direct positions from one up to another, as a stretch of rows.
fn stretch_of<'a>(
    values: &'a [u8],
    table: &'a [u8],
    part: ComparisonPart,
    sides: Sides,
    from: usize,
    to: usize,
) -> Stretch<'a>
    requires { (DirectRows table.now part sides from to) × (LongLanes part.sizes values.now) × (from < to) }
    ensures { OnRows values.now table.now part sides from to result }
{
    let sizes = part.sizes;
    let w = sizes.start + sizes.cycle;
    let lane = sizes.lead + w;
    let first = sizes.lead + from;
    let x = column_of(part.comparison.left, sides.left, lane, first);
    let y = column_of(part.comparison.right, sides.right, lane, first);
    let m = place(w, part.i, from);
    let count = to - from;
    Stretch {
        values,
        x,
        y,
        table,
        m,
        count,
    }
}

// Direct positions from one up to another, by the numbers of the lead-in and of pass 0 alone.
fn direct_numbers(
    values: &[u8],
    table: &[u8],
    part: ComparisonPart,
    sides: Sides,
    from: usize,
    to: usize,
) -> bool
    requires { (DirectRows table.now part sides from to) × (LongLanes part.sizes values.now) }
    ensures { result ≡ all_below (λ k. numbers_say values.now table.now part sides (from + k)) (to - from) }
{
    if to <= from {
        return true;
    }
    let stretch = stretch_of(values, table, part, sides, from, to);
    seen_agree(&stretch, part.comparison.relation)
}

// Direct positions from one up to another, by the lines that begin there.
fn direct_lines(
    values: &[u8],
    drifts: &[u8],
    table: &[u8],
    part: ComparisonPart,
    sides: Sides,
    from: usize,
    to: usize,
) -> bool
    requires { (DirectRows table.now part sides from to) × (LongLanes part.sizes values.now) × (from < to → LongLanes part.sizes drifts.now) }
    ensures { result ≡ all_below (λ k. lines_say values.now table.now part sides drifts.now (from + k)) (to - from) }
{
    if to <= from {
        return true;
    }
    let stretch = stretch_of(values, table, part, sides, from, to);
    let lines = Lines { stretch, drifts };
    under_agree(&lines, part.comparison.relation)
}

// The number of a term that is read so, on the row on which its shift lands from position t.
fn landed(values: &[u8], sizes: Sizes, term: Term, side: Side, t: usize) -> u64
    requires { (Lands sizes term side.code t) × (LongLanes sizes values.now) }
    ensures { unbiased result ≡ landed_number values.now sizes term side.code t }
{
    let lane = lane_of(term, side.top, sizes.lead + (sizes.start + sizes.cycle));
    number(values, lane, sizes.lead + row_of(sizes, t + side.code - 4))
}

// Where nothing drifts in the cycle, the mark of a part says what the comparison is at position t, before which no term is read before
// position 0: by the numbers of the rows on which its shifts land, whatever the pass.
fn still_agrees(values: &[u8], table: &[u8], part: ComparisonPart, sides: Sides, t: usize) -> bool
    requires { (OfPart table.now part sides) × (t < all_rows part.sizes + 4) × (4 ≤ t + sides.left.code) × (4 ≤ t + sides.right.code) × (LongLanes part.sizes values.now) }
    ensures { result ≡ still_says values.now table.now part sides t }
{
    let sizes = part.sizes;
    let comparison = part.comparison;
    let w = sizes.start + sizes.cycle;
    let a = landed(values, sizes, comparison.left, sides.left, t);
    let b = landed(values, sizes, comparison.right, sides.right, t);
    let mark = mark_at(table, part.n, w, part.i, row_of(sizes, t));
    let test = seen_compare(comparison.relation, sides.left.top, a, sides.right.top, b);
    agree(mark, test)
}

// The positions from one up to another, where nothing drifts in the cycle and no term is read before position 0.
fn still_one_by_one(
    values: &[u8],
    table: &[u8],
    part: ComparisonPart,
    sides: Sides,
    from: usize,
    to: usize,
) -> bool
    requires { (StillPositions table.now part sides from to) × (LongLanes part.sizes values.now) }
    ensures { result ≡ all_below (λ k. still_says values.now table.now part sides (from + k)) (to - from) }
{
    all_hold(
        to - from,
        |k| still_agrees(values, table, part, sides, from + k),
    )
}

// A comparison's verdict says on every row what its mark says, on every pass. `values` and `drifts` are the plan's lanes; where
// nothing drifts in the cycle the latter are not looked at.
pub fn verdicts_agree(
    plan: &[u8],
    values: &[u8],
    drifts: &[u8],
    still: bool,
    table: &[u8],
    part: ComparisonPart,
) -> bool
    requires { (Fitting plan.now part.sizes) × (Lanes plan.now part.sizes values.now drifts.now still) × (Sized table.now part.n (all_rows part.sizes)) × (part.i < part.n) × (TermsFit part.sizes part.comparison) × (AsksLeft part.comparison) }
    ensures { result ≡ all_below (agrees_on plan.now table.now (all_rows part.sizes) part.i part.comparison) (all_rows part.sizes) }
{
    let sizes = part.sizes;
    let comparison = part.comparison;
    let w = sizes.start + sizes.cycle;
    let x = comparison.left;
    let y = comparison.right;
    let whole = Plan { bytes: plan, sizes };
    let left = side_of(&whole, x);
    let right = side_of(&whole, y);
    let sides = Sides { left, right };
    let back = reach_of(x).max(reach_of(y));
    let ranges = ranges_of(sizes, back, left.code.max(right.code), still);
    let before = none_marked(table, place(w, part.i, 0), ranges.before);
    let numbers = direct_numbers(values, table, part, sides, ranges.before, ranges.numbers);
    if still {
        if back <= ranges.end {
            let later = still_one_by_one(values, table, part, sides, ranges.end, w + back);
            return before & numbers & later;
        }
    }
    let lines = direct_lines(
        values,
        drifts,
        table,
        part,
        sides,
        ranges.numbers,
        ranges.end,
    );
    let others = one_by_one(plan, table, part, sizes.start + back, ranges.end, w + back);
    before & numbers & lines & others
}
