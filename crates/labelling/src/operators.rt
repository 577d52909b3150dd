// The marks of an operator on all rows, in a table of `n` parts. `i` is the part's number; `own`, `other`, `left` and `right` are the
// places of the marks on row 0 of the part made and of the parts that it names, which are lower and so lie before it.
ghost use Rattle.std.specs.Prelude.{◌≡◌, true, false, ◌+◌, ◌*◌, ◌-◌, ◌≤◌, ◌<◌, length};
ghost use Rattle.cltlb.specs.Fits.{names_lower};
ghost use Rattle.cltlb.specs.declared.Operator.TheVariants.{One, Two};
ghost use Rattle.plan.specs.inner.Sizes.{all_rows};
ghost use Rattle.table.specs.Layout.{marked};
ghost use Rattle.table.specs.Bytes.{byte_of};
ghost use Rattle.table.specs.inner.Tables.{flipped, mark_in, most_bytes, Sized};
ghost use Rattle.table.specs.inner.Stored.{Stored};
ghost use Rattle.table.specs.inner.Sweeps.{backed, marks_from};
ghost use Rattle.marks.specs.Equations.{mark_beside};
ghost use Rattle.labelling.specs.Labels.{operator_label};

use cltlb::{Binary, Operator, Unary};
use marks::operators::Beside;
use plan::sizes::Sizes;
use table::bytes::place;
use table::fills::{fill_back, fill_copied, fill_joined, fill_on, put_mark, swept_back};

// On each row the mark of another part on the row beside.
fn fill_beside(table: &mut [u8], own: usize, other: usize, sizes: Sizes, side: Beside)
    requires { (1 ≤ sizes.cycle) × (all_rows sizes ≤ 256) × (own + all_rows sizes ≤ length table.old) × (other + all_rows sizes ≤ own) × (length table.old ≤ most_bytes) }
    ensures { Stored table.old table.new own 0 (all_rows sizes) (λ row. byte_of (mark_beside sizes.start sizes.cycle side (λ k. mark_in table.old (other + k)) row)) }
{
    let w = sizes.start + sizes.cycle;
    match side {
        Beside::After => {
            fill_copied(table, own, other + 1, w - 1, false);
            fill_copied(table, own + (w - 1), other + sizes.start, 1, false);
        }
        Beside::Before(first) => {
            put_mark(table, own, first);
            fill_copied(table, own + 1, other, w - 1, false);
        }
    }
}

// U, or with `opposite` R: a first sweep back over the cycle rows finds what it is on row P, which is what comes after the last row;
// a second one makes the marks.
fn fill_ahead(table: &mut [u8], own: usize, left: usize, right: usize, sizes: Sizes, opposite: bool)
    requires { (all_rows sizes ≤ 256) × (own + all_rows sizes ≤ length table.old) × (left + all_rows sizes ≤ own) × (right + all_rows sizes ≤ own) × (length table.old ≤ most_bytes) }
    ensures { Stored table.old table.new own 0 (all_rows sizes) (λ row. byte_of (flipped opposite (backed (marks_from opposite table.old left) (marks_from opposite table.old right) (backed (marks_from opposite table.old left) (marks_from opposite table.old right) false sizes.cycle sizes.start) (all_rows sizes - row) row))) }
{
    let w = sizes.start + sizes.cycle;
    let end = swept_back(table, left, right, sizes.start, sizes.cycle, opposite);
    fill_back(table, own, left, right, w, end, opposite);
}

// An operator over part `a`.
fn label_one(table: &mut [u8], n: usize, sizes: Sizes, i: usize, operator: Unary, a: usize)
    requires { (Sized table.old n (all_rows sizes)) × (1 ≤ sizes.cycle) × (i < n) × (a < i) }
    ensures { Stored table.old table.new (4 + i * all_rows sizes) 0 (all_rows sizes) (λ row. byte_of (operator_label sizes.start sizes.cycle (marked (all_rows sizes) table.old) (One operator a) row)) }
{
    let w = sizes.start + sizes.cycle;
    let own = place(w, i, 0);
    let other = place(w, a, 0);
    match operator {
        Unary::Not => fill_copied(table, own, other, w, true),
        Unary::Next => fill_beside(table, own, other, sizes, Beside::After),
        Unary::Yesterday => fill_beside(table, own, other, sizes, Beside::Before(false)),
        Unary::WeakYesterday => fill_beside(table, own, other, sizes, Beside::Before(true)),
    }
}

// An operator over parts `a` and `b`.
fn label_two(
    table: &mut [u8],
    n: usize,
    sizes: Sizes,
    i: usize,
    operator: Binary,
    a: usize,
    b: usize,
)
    requires { (Sized table.old n (all_rows sizes)) × (1 ≤ sizes.cycle) × (i < n) × (a < i) × (b < i) }
    ensures { Stored table.old table.new (4 + i * all_rows sizes) 0 (all_rows sizes) (λ row. byte_of (operator_label sizes.start sizes.cycle (marked (all_rows sizes) table.old) (Two operator a b) row)) }
{
    let w = sizes.start + sizes.cycle;
    let own = place(w, i, 0);
    let left = place(w, a, 0);
    let right = place(w, b, 0);
    match operator {
        Binary::And => fill_joined(table, own, left, right, w, true),
        Binary::Or => fill_joined(table, own, left, right, w, false),
        Binary::Until => fill_ahead(table, own, left, right, sizes, false),
        Binary::Release => fill_ahead(table, own, left, right, sizes, true),
        Binary::Since => fill_on(table, own, left, right, w, false),
        Binary::Trigger => fill_on(table, own, left, right, w, true),
    }
}

// The marks of an operator on all rows.
pub fn label_operator(table: &mut [u8], n: usize, sizes: Sizes, i: usize, operator: Operator)
    requires { (Sized table.old n (all_rows sizes)) × (1 ≤ sizes.cycle) × (i < n) × (names_lower i operator ≡ true) }
    ensures { Stored table.old table.new (4 + i * all_rows sizes) 0 (all_rows sizes) (λ row. byte_of (operator_label sizes.start sizes.cycle (marked (all_rows sizes) table.old) operator row)) }
{
    match operator {
        Operator::One(sort, a) => label_one(table, n, sizes, i, sort, a),
        Operator::Two(sort, a, b) => label_two(table, n, sizes, i, sort, a, b),
    }
}
