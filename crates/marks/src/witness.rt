// Witnesses. `i` is a part's number, `w` its witness.
ghost use Rattle.std.specs.Prelude.{◌≡◌, true, ◌<◌};
ghost use Rattle.cltlb.specs.Fits.{names_lower, view_fits};
ghost use Rattle.plan.specs.inner.Sizes.{all_rows};
ghost use Rattle.table.specs.Layout.{marked, witness_of};
ghost use Rattle.table.specs.inner.Tables.{flipped};
ghost use Rattle.marks.specs.Parts.{names, witness_two, witness_of_operator, witness_in_order};

use crate::Table;
use cltlb::{Binary, Operator, View};

// What stands for no witness in the bytes. It is a number here as in the definitions, which hold any number read against it.
pub const NO_WITNESS: usize = 65535;

// Row `w` is a row from P to W - 1 on which part `b` has the mark 1, or the mark 0 where the opposite is asked for.
fn names_row(table: &Table, b: usize, w: usize, opposite: bool) -> bool
    requires { b < table.now.parts }
    ensures { result ≡ names table.now.sizes.start table.now.sizes.cycle (λ row. flipped opposite (marked (all_rows table.now.sizes) table.now.bytes.now b row)) w }
{
    table.sizes.start <= w && w < table.rows() && (table.mark_at(b, w) ^ opposite)
}

// The witness of an operator over two parts, of which `b` is the second, is as the document states it; `last` is the operator's
// mark on row W - 1.
fn two_witness(table: &Table, operator: Binary, last: bool, b: usize, w: usize) -> bool
    requires { b < table.now.parts }
    ensures { result ≡ witness_two table.now.sizes.start table.now.sizes.cycle operator last (marked (all_rows table.now.sizes) table.now.bytes.now b) w }
{
    match operator {
        Binary::Until if last => names_row(table, b, w, false),
        Binary::Release if !last => names_row(table, b, w, true),
        _ => w == NO_WITNESS,
    }
}

// The witness of an operator is as the document states it.
fn operator_witness(table: &Table, i: usize, operator: Operator, w: usize) -> bool
    requires { (i < table.now.parts) × (names_lower table.now.parts operator ≡ true) }
    ensures { result ≡ witness_of_operator table.now.sizes.start table.now.sizes.cycle (marked (all_rows table.now.sizes) table.now.bytes.now) operator i w }
{
    match operator {
        Operator::One(_, _) => w == NO_WITNESS,
        Operator::Two(sort, _, b) => two_witness(table, sort, table.last_mark(i), b, w),
    }
}

// The witness of part `i` is as the document states it.
pub fn witness_in_order(table: &Table, i: usize, view: View) -> bool
    requires { (i < table.now.parts) × (view_fits table.now.sizes.channels table.now.parts view ≡ true) }
    ensures { result ≡ witness_in_order table.now.sizes.start table.now.sizes.cycle (marked (all_rows table.now.sizes) table.now.bytes.now) view i (witness_of table.now.parts (all_rows table.now.sizes) table.now.bytes.now i) }
{
    let w = table.witness_at(i);
    match view {
        View::Atom(_) => w == NO_WITNESS,
        View::Operator(operator) => operator_witness(table, i, operator, w),
    }
}
