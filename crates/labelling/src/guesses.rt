// The marks of a part guessed on all rows, in a table of `n` parts: of a comparison by the numbers of the lead-in and of pass 0, over lanes.
// Nothing is promised of a guess but that it keeps within the table: the check says whether it is right. `i` is the part's number, `m` the
// place of the first mark written.
ghost use Rattle.std.specs.Prelude.{◌≡◌, true, ℕ, ◌≤◌, ◌<◌, length};
ghost use Rattle.cltlb.specs.Fits.{view_fits};
ghost use Rattle.fields.specs.inner.Biased.{bias, patterns};
ghost use Rattle.plan.specs.inner.Sizes.{all_rows, Fitting};
ghost use Rattle.verdict.specs.inner.Reach.{TermsFit, AsksLeft};
ghost use Rattle.lanes.specs.inner.Columns.{InLanes, InMarks};
ghost use Rattle.lanes.specs.inner.Direct.{DirectRows, LongLanes};
ghost use Rattle.table.specs.inner.Tables.{Sized};

use crate::operators::label_operator;
use cltlb::View;
use lanes::columns::{Column, column_of, number, side_of};
use lanes::ranges::ranges_of;
use lanes::rows::{ComparisonPart, Sides};
use lanes::tops::seen_compare;
use plan::Plan;
use table::bytes::place;
use table::fills::put_mark;
use verdict::atoms::comparison_of;
use verdict::rows::test_at;
use verdict::terms::reach_of;
use verdict::weeks::WEEK;
use verdict::{Comparison, Relation};

// The minutes of so many weeks that no number is larger.
const WEEKS: u64 = 426090 * WEEK;

// On each row what a test of the two numbers there says.
#[inline(always)]
fn guess_numbers<F: Fn(u64, u64) -> bool>(
    values: &[u8],
    x: Column,
    y: Column,
    table: &mut [u8],
    m: usize,
    count: usize,
    test: F,
)
    requires { (InLanes values.now x y count) × (InMarks table.old m count) × ((a b : ℕ) → a < patterns → b < patterns → F.pre test a b) }
    ensures { length table.new ≡ length table.old }
{
    for k in 0..count {
        put_mark(
            table,
            m + k,
            test(number(values, x, k), number(values, y, k)),
        );
    }
}

// How what is seen in two columns compares.
fn guess_seen(
    values: &[u8],
    relation: Relation,
    x: Column,
    y: Column,
    table: &mut [u8],
    m: usize,
    count: usize,
)
    requires { (InLanes values.now x y count) × (InMarks table.old m count) × (x.top < bias) × (y.top < bias) }
    ensures { length table.new ≡ length table.old }
{
    let test = |a, b| seen_compare(relation, x.top, a, y.top, b);
    guess_numbers(values, x, y, table, m, count, test);
}

// The same, where there is no top. Whether a number is less than so many minutes after another is asked once weeks are added that it stays
// above 0, rather than tell two ways apart on each row.
fn guess_values(
    values: &[u8],
    relation: Relation,
    x: Column,
    y: Column,
    table: &mut [u8],
    m: usize,
    count: usize,
)
    requires { (InLanes values.now x y count) × (InMarks table.old m count) × (x.top < bias) × (y.top < bias) }
    ensures { length table.new ≡ length table.old }
{
    match relation {
        Relation::Below => guess_numbers(values, x, y, table, m, count, |a, b| a < b),
        Relation::Same => guess_numbers(values, x, y, table, m, count, |a, b| a == b),
        Relation::Within(minutes) => {
            let test = |a, b| (a + WEEKS - b) % WEEK < minutes;
            guess_numbers(values, x, y, table, m, count, test);
        }
        Relation::Pinned => guess_seen(values, relation, x, y, table, m, count),
    }
}

// Direct rows from one up to another.
fn guess_direct(
    values: &[u8],
    table: &mut [u8],
    part: ComparisonPart,
    sides: Sides,
    from: usize,
    to: usize,
)
    requires { (DirectRows table.old part sides from to) × (LongLanes part.sizes values.now) }
    ensures { length table.new ≡ length table.old }
{
    if to <= from {
        return;
    }
    let sizes = part.sizes;
    let comparison = part.comparison;
    let w = sizes.start + sizes.cycle;
    let lane = sizes.lead + w;
    let first = sizes.lead + from;
    let relation = comparison.relation;
    let left_term = comparison.left;
    let right_term = comparison.right;
    let left = sides.left;
    let right = sides.right;
    let x = column_of(left_term, left, lane, first);
    let y = column_of(right_term, right, lane, first);
    let m = place(w, part.i, from);
    if left.top + right.top == 0 {
        guess_values(values, relation, x, y, table, m, to - from);
        return;
    }
    guess_seen(values, relation, x, y, table, m, to - from);
}

// The rows from one up to another, one by one.
fn guess_rows(
    plan: &Plan,
    table: &mut [u8],
    m: usize,
    comparison: Comparison,
    from: usize,
    to: usize,
)
    requires { (TermsFit plan.now.sizes comparison) × (InMarks table.old m to) × (to ≤ all_rows plan.now.sizes) }
    ensures { length table.new ≡ length table.old }
{
    for row in from..to {
        put_mark(table, m + row, test_at(plan, comparison, row));
    }
}

// A comparison on all rows.
fn guess_comparison(plan: &[u8], values: &[u8], table: &mut [u8], part: ComparisonPart)
    requires { (Fitting plan.now part.sizes) × (LongLanes part.sizes values.now) × (Sized table.old part.n (all_rows part.sizes)) × (part.i < part.n) × (TermsFit part.sizes part.comparison) × (AsksLeft part.comparison) }
    ensures { length table.new ≡ length table.old }
{
    let sizes = part.sizes;
    let comparison = part.comparison;
    let w = sizes.start + sizes.cycle;
    let x = comparison.left;
    let y = comparison.right;
    let whole = Plan { bytes: plan, sizes };
    let left = side_of(&whole, x);
    let right = side_of(&whole, y);
    let sides = Sides { left, right };
    let back = reach_of(x).max(reach_of(y));
    let ranges = ranges_of(sizes, back, left.code.max(right.code), true);
    let own = place(w, part.i, 0);
    guess_rows(&whole, table, own, comparison, 0, ranges.before);
    guess_direct(values, table, part, sides, ranges.before, ranges.numbers);
    guess_rows(&whole, table, own, comparison, ranges.numbers, w);
}

// A part on all rows, an operator by the marks of lower parts.
pub fn guess_part(plan: &Plan, values: &[u8], table: &mut [u8], n: usize, i: usize, view: View)
    requires { (LongLanes plan.now.sizes values.now) × (Sized table.old n (all_rows plan.now.sizes)) × (i < n) × (view_fits plan.now.sizes.channels i view ≡ true) }
    ensures { length table.new ≡ length table.old }
{
    let sizes = plan.sizes;
    match view {
        View::Atom(atom) => {
            let part = ComparisonPart {
                n,
                sizes,
                i,
                comparison: comparison_of(atom),
            };
            guess_comparison(plan.bytes, values, table, part);
        }
        View::Operator(operator) => label_operator(table, n, sizes, i, operator),
    }
}
