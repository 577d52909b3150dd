// Refusals 9 to 11 of part `i` of a table of `n` parts.
ghost use Rattle.refusal.specs.Outcome.{unrefused};
ghost use Rattle.std.specs.Prelude.{◌≡◌, true, ◌*◌, ◌<◌};
ghost use Rattle.cltlb.specs.Fits.{atom_fits};
ghost use Rattle.refusal.specs.First.{unless};
ghost use Rattle.refusal.specs.declared.Refusal.TheVariants.{Closing};
ghost use Rattle.plan.specs.inner.Sizes.{all_rows};
ghost use Rattle.table.specs.Layout.{marked, witness_of};
ghost use Rattle.marks.specs.Parts.{breaks, closing_outcome, witness_outcome, steady_outcome};
ghost use Rattle.table.specs.inner.Tables.{MarkBytes};
ghost use Rattle.marks.specs.inner.PartsRead.{Readable, PartClear};
ghost use Rattle.lanes.specs.inner.Lanes.{Lanes};

use crate::Table;
use crate::closing::closes;
use crate::equations::expected_mark;
use crate::stretches::operator_clear;
use crate::witness::witness_in_order;
use cltlb::{Atom, View};
use lanes::rows::{ComparisonPart, verdicts_agree};
use plan::Plan;
use plan::sizes::Sizes;
use refusal::Refusal;
use table::bytes::mark_at;
use verdict::atoms::{comparison_of, judge_row};
use verdict::is_changes;

// All rows at once, of a table whose bytes are marks, over the plan's lanes: where this is true, part `i` closes and meets its
// equation on every row.
pub fn surely_clear(
    plan: &Plan,
    values: &[u8],
    drifts: &[u8],
    still: bool,
    table: &[u8],
    n: usize,
    i: usize,
    view: View,
) -> bool
    requires { (Readable plan.now.bytes.now table.now n plan.now.sizes i view) × (MarkBytes table.now 4 (n * all_rows plan.now.sizes)) × (Lanes plan.now.bytes.now plan.now.sizes values.now drifts.now still) }
    ensures { result ≡ true → PartClear plan.now.bytes.now table.now plan.now.sizes view i }
{
    let sizes = plan.sizes;
    match view {
        View::Atom(atom) => {
            let part = ComparisonPart {
                n,
                sizes,
                i,
                comparison: comparison_of(atom),
            };
            verdicts_agree(plan.bytes, values, drifts, still, table, part)
        }
        View::Operator(operator) => {
            let marks = Table {
                bytes: table,
                parts: n,
                sizes,
            };
            operator_clear(&marks, i, operator)
        }
    }
}

// The mark of part `i` on a row breaks its equation.
pub fn breaks_on(plan: &Plan, table: &[u8], n: usize, i: usize, view: View, row: usize) -> bool
    requires { (Readable plan.now.bytes.now table.now n plan.now.sizes i view) × (row < all_rows plan.now.sizes) }
    ensures { result ≡ breaks plan.now.bytes.now (marked (all_rows plan.now.sizes) table.now) view i row }
{
    let sizes = plan.sizes;
    let w = sizes.start + sizes.cycle;
    mark_at(table, n, w, i, row) != expected_mark(plan, table, n, i, view, row)
}

// The lowest cycle row on which an atom changes.
fn check_steady(plan: &Plan, i: usize, atom: Atom) -> Result<(), Refusal>
    requires { atom_fits plan.now.sizes.channels atom ≡ true }
    ensures { result ≡ steady_outcome plan.now.bytes.now atom i }
{
    let sizes = plan.sizes;
    let w = sizes.start + sizes.cycle;
    for row in sizes.start..w {
        if is_changes(judge_row(plan, atom, row)) {
            return Err(Refusal::Closing { part: i, row });
        }
    }
    Ok(())
}

// Refusal 10 of part `i`, an operator, by whether it closes.
pub fn closing_outcome(sizes: Sizes, i: usize, closed: bool) -> Result<(), Refusal>
    ensures { result ≡ unless closed (Closing i sizes.start) }
{
    if closed {
        Ok(())
    } else {
        Err(Refusal::Closing {
            part: i,
            row: sizes.start,
        })
    }
}

// Refusal 10 of part `i`, whatever its own marks are; where it is sure that the part closes, nothing is looked at.
pub fn check_closing(
    plan: &Plan,
    table: &[u8],
    n: usize,
    i: usize,
    view: View,
    sure: bool,
) -> Result<(), Refusal>
    requires { (Readable plan.now.bytes.now table.now n plan.now.sizes i view) × (sure ≡ true → closing_outcome plan.now.bytes.now (marked (all_rows plan.now.sizes) table.now) view i ≡ unrefused) }
    ensures { result ≡ closing_outcome plan.now.bytes.now (marked (all_rows plan.now.sizes) table.now) view i }
{
    let sizes = plan.sizes;
    if sure {
        return Ok(());
    }
    match view {
        View::Atom(atom) => check_steady(plan, i, atom),
        View::Operator(operator) => {
            let marks = Table {
                bytes: table,
                parts: n,
                sizes,
            };
            closing_outcome(sizes, i, closes(&marks, operator))
        }
    }
}

// Refusal 11 of part `i`.
pub fn check_witness(
    plan: &Plan,
    table: &[u8],
    n: usize,
    i: usize,
    view: View,
) -> Result<(), Refusal>
    requires { Readable plan.now.bytes.now table.now n plan.now.sizes i view }
    ensures { result ≡ witness_outcome plan.now.bytes.now (marked (all_rows plan.now.sizes) table.now) view i (witness_of n (all_rows plan.now.sizes) table.now i) }
{
    let marks = Table {
        bytes: table,
        parts: n,
        sizes: plan.sizes,
    };
    if witness_in_order(&marks, i, view) {
        Ok(())
    } else {
        Err(Refusal::Witness { part: i })
    }
}
