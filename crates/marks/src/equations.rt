// The equations of operators, on one row at a time. `i` is a part's number.
ghost use Rattle.std.specs.Prelude.{◌≡◌, true, ◌≤◌, ◌<◌};
ghost use Rattle.cltlb.specs.Fits.{names_lower, view_fits};
ghost use Rattle.plan.specs.Positions.{after};
ghost use Rattle.plan.specs.inner.Sizes.{all_rows};
ghost use Rattle.verdict.specs.Rows.{atom_at};
ghost use Rattle.table.specs.Layout.{marked};
ghost use Rattle.marks.specs.Equations.{step_on, mark_beside, operator_mark, expected};
ghost use Rattle.table.specs.inner.Tables.{Sized};

use crate::Table;
use crate::operators::{Beside, beside_of, mark_one, mark_two, watched};
use cltlb::{Operator, View};
use plan::Plan;
use plan::sizes::Sizes;

// The mark of an operator on a row, by the mark beside.
pub fn step_on(table: &Table, operator: Operator, row: usize, beside: bool) -> bool
    requires { (names_lower table.now.parts operator ≡ true) × (row < all_rows table.now.sizes) }
    ensures { result ≡ step_on (marked (all_rows table.now.sizes) table.now.bytes.now) operator row beside }
{
    match operator {
        Operator::One(sort, a) => mark_one(sort, table.mark_at(a, row), beside),
        Operator::Two(sort, a, b) => {
            mark_two(sort, table.mark_at(a, row), table.mark_at(b, row), beside)
        }
    }
}

// The row after W - 1 is P.
fn row_after(sizes: Sizes, row: usize) -> usize
    requires { (1 ≤ sizes.cycle) × (all_rows sizes ≤ 256) × (row < all_rows sizes) }
    ensures { (result ≡ after sizes.start sizes.cycle row) × (result < all_rows sizes) }
{
    if row == sizes.start + sizes.cycle - 1 {
        sizes.start
    } else {
        row + 1
    }
}

// The mark of a part on the row beside a row.
fn mark_beside(table: &Table, side: Beside, part: usize, row: usize) -> bool
    requires { (part < table.now.parts) × (row < all_rows table.now.sizes) }
    ensures { result ≡ mark_beside table.now.sizes.start table.now.sizes.cycle side (marked (all_rows table.now.sizes) table.now.bytes.now part) row }
{
    match side {
        Beside::After => table.mark_at(part, row_after(table.sizes, row)),
        Beside::Before(first) => {
            if row == 0 {
                first
            } else {
                table.mark_at(part, row - 1)
            }
        }
    }
}

// The mark that an operator has to have on a row.
fn operator_mark(table: &Table, i: usize, operator: Operator, row: usize) -> bool
    requires { (i < table.now.parts) × (names_lower table.now.parts operator ≡ true) × (row < all_rows table.now.sizes) }
    ensures { result ≡ operator_mark table.now.sizes.start table.now.sizes.cycle (marked (all_rows table.now.sizes) table.now.bytes.now) operator i row }
{
    let side = beside_of(operator);
    let beside = mark_beside(table, side, watched(operator, i), row);
    step_on(table, operator, row, beside)
}

// The mark that a part has to have on a row: an atom its truth at pass 0, an operator by the marks.
pub fn expected_mark(plan: &Plan, table: &[u8], n: usize, i: usize, view: View, row: usize) -> bool
    requires { (Sized table.now n (all_rows plan.now.sizes)) × (i < n) × (view_fits plan.now.sizes.channels n view ≡ true) × (row < all_rows plan.now.sizes) }
    ensures { result ≡ expected plan.now.sizes.start plan.now.sizes.cycle (marked (all_rows plan.now.sizes) table.now) (atom_at plan.now.bytes.now) view i row }
{
    match view {
        View::Atom(atom) => verdict::atoms::atom_at(plan, atom, row),
        View::Operator(operator) => {
            let marks = Table {
                bytes: table,
                parts: n,
                sizes: plan.sizes,
            };
            operator_mark(&marks, i, operator, row)
        }
    }
}
