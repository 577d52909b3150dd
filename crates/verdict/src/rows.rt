// A comparison on a row, over all passes, and at a position.
ghost use Rattle.std.specs.Prelude.{◌≡◌, true, ◌+◌, ◌*◌, ◌≤◌, ◌<◌};
ghost use Rattle.cltlb.specs.Run as cltlb;
ghost use Rattle.plan.specs.inner.Sizes.{all_rows};
ghost use Rattle.plan.specs.inner.Lifted.{lowered, seen_of};
ghost use Rattle.verdict.specs.Comparisons.{test_of, tested};
ghost use Rattle.verdict.specs.Rows.{test_at, judge_from, judge_cycle, judge_row};
ghost use Rattle.verdict.specs.inner.Reach.{reach, TermsFit, latest, latest_from};
ghost use Rattle.verdict.specs.inner.Landed.{BothLand, Reached, judge_landed, NoTops};

use crate::early::{always, early_passes, join_first};
use crate::lines::decide;
use crate::terms::{code_in, landed_line, reach_of, seen_on, seen_term, top_in};
use crate::tops::decide_under;
use crate::weeks::minutes_after;
use crate::{Comparison, Relation, Verdict};
use plan::Plan;
use plan::landing::{Landing, landing_of};
use plan::lookup::Seen;

// The test of two numbers; no number is pinned.
fn compare_numbers(relation: Relation, m: u64, n: u64) -> bool
    ensures { result ≡ test_of relation (lowered m) (lowered n) }
{
    match relation {
        Relation::Below => m < n,
        Relation::Same => m == n,
        Relation::Within(minutes) => minutes_after(m, n) < minutes,
        Relation::Pinned => false,
    }
}

// The test where the left one is pinned.
#[tactic(auto, using(crate::proofs::Relations::asks_pinned, crate::proofs::Relations::asks_other))]
pub fn compare_pinned(relation: Relation) -> bool
    ensures { (y : cltlb.Seen) → result ≡ tested relation cltlb.pinned y }
{
    matches!(relation, Relation::Pinned)
}

// The test of what is seen of two terms.
#[tactic(auto, using(crate::proofs::Values::tested_before))]
fn compare(relation: Relation, a: Seen, b: Seen) -> bool
    ensures { result ≡ tested relation (seen_of a) (seen_of b) }
{
    match (a, b) {
        (Seen::Number(m), Seen::Number(n)) => compare_numbers(relation, m, n),
        (Seen::Pinned, _) => compare_pinned(relation),
        _ => false,
    }
}

// A comparison at position t.
pub fn test_at(plan: &Plan, comparison: Comparison, t: usize) -> bool
    requires { (TermsFit plan.now.sizes comparison) × (t ≤ latest plan.now.sizes) }
    ensures { result ≡ test_at plan.now.bytes.now comparison t }
{
    let relation = comparison.relation;
    let x = comparison.left;
    let y = comparison.right;
    compare(relation, seen_term(plan, x, t), seen_term(plan, y, t))
}

// Where the shifts of a comparison's two terms land from a row.
#[derive(Clone, Copy)]
struct Landings {
    left: Landing,
    right: Landing,
}

#[inline(always)]
fn landings_of(plan: &Plan, comparison: Comparison, row: usize) -> Landings
    requires { (TermsFit plan.now.sizes comparison) × (plan.now.sizes.start ≤ row) × (row ≤ latest plan.now.sizes) }
    ensures { BothLand plan.now.sizes row comparison result.left result.right }
{
    let left = landing_of(plan.sizes, row, code_in(comparison.left));
    let right = landing_of(plan.sizes, row, code_in(comparison.right));
    Landings { left, right }
}

// A comparison on pass k of a row, from which the shifts of its two terms land so.
#[inline(always)]
fn test_on(plan: &Plan, comparison: Comparison, landings: Landings, row: usize, k: usize) -> bool
    requires { (TermsFit plan.now.sizes comparison) × (plan.now.sizes.start ≤ row) × (BothLand plan.now.sizes row comparison landings.left landings.right) × (row + k * plan.now.sizes.cycle ≤ latest plan.now.sizes) }
    ensures { result ≡ test_at plan.now.bytes.now comparison (row + k * plan.now.sizes.cycle) }
{
    let relation = comparison.relation;
    let x = comparison.left;
    let y = comparison.right;
    compare(
        relation,
        seen_on(plan, x, landings.left, row, k),
        seen_on(plan, y, landings.right, row, k),
    )
}

// The verdict on all passes from pass k on, of a row from which the shifts of the two terms land so: that on their lines, where it is
// known that they have no tops, and else under their tops. The two ways stand apart, and are put into their callers, so that nothing of
// the tops is left in the loops over rows without them.
#[inline(always)]
fn judge_landed<const FREE: bool>(
    plan: &Plan,
    comparison: Comparison,
    landings: Landings,
    k: usize,
) -> Verdict
    requires { (TermsFit plan.now.sizes comparison) × (Reached plan.now.sizes landings.left k) × (Reached plan.now.sizes landings.right k) × (FREE ≡ true → NoTops plan.now.bytes.now comparison) }
    ensures { result ≡ judge_landed plan.now.bytes.now comparison landings.left landings.right k }
{
    let relation = comparison.relation;
    let x = comparison.left;
    let y = comparison.right;
    let a = landed_line(plan, x, landings.left, k);
    let b = landed_line(plan, y, landings.right, k);
    if FREE {
        return decide(relation, a, b);
    }
    decide_under(relation, top_in(plan, x), a, top_in(plan, y), b)
}

// Neither term of a comparison is read on a channel that has a top.
fn without_tops(plan: &Plan, comparison: Comparison) -> bool
    requires { TermsFit plan.now.sizes comparison }
    ensures { result ≡ true → NoTops plan.now.bytes.now comparison }
{
    let x = comparison.left;
    let y = comparison.right;
    top_in(plan, x) + top_in(plan, y) == 0
}

// The verdict on the passes from position t on, neither term being read before the cycle there: that on the two lines that begin
// there, where there are no tops, and else under them.
pub fn judge_from(plan: &Plan, comparison: Comparison, t: usize) -> Verdict
    requires { (TermsFit plan.now.sizes comparison) × (plan.now.sizes.start + reach comparison.left ≤ t) × (plan.now.sizes.start + reach comparison.right ≤ t) × (t ≤ latest plan.now.sizes) }
    ensures { result ≡ judge_from plan.now.bytes.now comparison t }
{
    let landings = landings_of(plan, comparison, t);
    if without_tops(plan, comparison) {
        return judge_landed::<true>(plan, comparison, landings, 0);
    }
    judge_landed::<false>(plan, comparison, landings, 0)
}

// The verdict on the passes from a position of the cycle on. Where the two shifts land is found once, ahead of the passes.
fn cycle_landed<const FREE: bool>(plan: &Plan, comparison: Comparison, row: usize) -> Verdict
    requires { (TermsFit plan.now.sizes comparison) × (plan.now.sizes.start ≤ row) × (row ≤ latest_from plan.now.sizes) × (FREE ≡ true → NoTops plan.now.bytes.now comparison) }
    ensures { result ≡ judge_cycle plan.now.bytes.now comparison 4 row }
{
    let x = comparison.left;
    let y = comparison.right;
    let landings = landings_of(plan, comparison, row);
    let n = early_passes(plan.sizes, row, reach_of(x).max(reach_of(y)));
    let later = judge_landed::<FREE>(plan, comparison, landings, n);
    join_first(n, later, |k| {
        test_on(plan, comparison, landings, row, k)
    })
}

// The same, with or without tops.
pub fn judge_cycle(plan: &Plan, comparison: Comparison, row: usize) -> Verdict
    requires { (TermsFit plan.now.sizes comparison) × (plan.now.sizes.start ≤ row) × (row ≤ latest_from plan.now.sizes) }
    ensures { result ≡ judge_cycle plan.now.bytes.now comparison 4 row }
{
    if without_tops(plan, comparison) {
        return cycle_landed::<true>(plan, comparison, row);
    }
    cycle_landed::<false>(plan, comparison, row)
}

// The verdict on a comparison, on a row. A caller with many rows makes the comparison once.
pub fn judge_comparison(plan: &Plan, comparison: Comparison, row: usize) -> Verdict
    requires { (TermsFit plan.now.sizes comparison) × (row < all_rows plan.now.sizes) }
    ensures { result ≡ judge_row plan.now.bytes.now comparison row }
{
    if plan.sizes.start <= row {
        return judge_cycle(plan, comparison, row);
    }
    always(test_at(plan, comparison, row))
}
