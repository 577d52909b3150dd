// The equations of operators on all rows, many rows at once. The operator is opened once; below that
// only numbers are handed on beside the plan's sizes: `m`, `a` and `b`, the places of the marks on row 0 of the part and of the
// parts that it names. Marks on other rows lie as many places on.
ghost use Rattle.std.specs.Prelude.{◌≡◌, true, false, ◌+◌, ◌*◌, ◌≤◌, ◌<◌, length};
ghost use Rattle.cltlb.specs.Fits.{names_lower};
ghost use Rattle.cltlb.specs.declared.Operator.TheVariants.{One, Two};
ghost use Rattle.plan.specs.inner.Sizes.{all_rows};
ghost use Rattle.table.specs.Layout.{marked};
ghost use Rattle.marks.specs.inner.Tables.{copy_test, step_test, ahead_of, behind_of, clear_of};
ghost use Rattle.table.specs.inner.Tables.{copy_of, mark_in, most_bytes, MarkBytes};

use crate::Table;
use cltlb::{Binary, Operator, Unary};
use plan::sizes::Sizes;
use table::bytes::place;
use table::sweeps::{agree, copied, copies, opposites, stepped, steps};

// Each mark is a's on the row after.
fn copies_ahead(table: &[u8], sizes: Sizes, m: usize, a: usize) -> bool
    requires { (1 ≤ sizes.cycle) × (MarkBytes table.now m (all_rows sizes)) × (MarkBytes table.now a (all_rows sizes)) × (length table.now ≤ most_bytes) }
    ensures { result ≡ ahead_of sizes.start sizes.cycle (copy_test table.now m a) }
{
    let p = sizes.start;
    let last = p + sizes.cycle - 1;
    copies(table, m, a + 1, last) & copied(table, m + last, a + p)
}

// Each mark is a's on the row before, that on row 0 is `first`, and row P is so after row W - 1 too.
fn copies_behind(table: &[u8], sizes: Sizes, m: usize, a: usize, first: bool) -> bool
    requires { (1 ≤ sizes.cycle) × (MarkBytes table.now m (all_rows sizes)) × (MarkBytes table.now a (all_rows sizes)) × (length table.now ≤ most_bytes) }
    ensures { result ≡ behind_of sizes.start sizes.cycle (copy_of false (mark_in table.now m) first) (copy_test table.now m a) }
{
    let p = sizes.start;
    let last = p + sizes.cycle - 1;
    agree(table[m] == 1, first) & copies(table, m + 1, a, last) & copied(table, m + p, a + last)
}

// Each mark is b, or a and the mark on the row after; or it is so of the opposites.
fn steps_ahead(table: &[u8], sizes: Sizes, m: usize, a: usize, b: usize, opposite: bool) -> bool
    requires { (1 ≤ sizes.cycle) × (MarkBytes table.now m (all_rows sizes)) × (MarkBytes table.now a (all_rows sizes)) × (MarkBytes table.now b (all_rows sizes)) × (length table.now ≤ most_bytes) }
    ensures { result ≡ ahead_of sizes.start sizes.cycle (step_test opposite table.now m a b) }
{
    let p = sizes.start;
    let last = p + sizes.cycle - 1;
    steps(table, m, a, b, m + 1, last, opposite)
        & stepped(table, m + last, a + last, b + last, m + p, opposite)
}

// Each mark is b, or a and the mark on the row before, that on row 0 is b, and row P is so after row W - 1 too; or it is so of
// the opposites.
fn steps_behind(table: &[u8], sizes: Sizes, m: usize, a: usize, b: usize, opposite: bool) -> bool
    requires { (1 ≤ sizes.cycle) × (MarkBytes table.now m (all_rows sizes)) × (MarkBytes table.now a (all_rows sizes)) × (MarkBytes table.now b (all_rows sizes)) × (length table.now ≤ most_bytes) }
    ensures { result ≡ behind_of sizes.start sizes.cycle (copy_of false (mark_in table.now m) (mark_in table.now b)) (step_test opposite table.now m a b) }
{
    let p = sizes.start;
    let last = p + sizes.cycle - 1;
    copied(table, m, b)
        & steps(table, m + 1, a + 1, b + 1, m, last, opposite)
        & stepped(table, m + p, a + p, b + p, m + last, opposite)
}

// Part `i`, which is an operator over part `a`, meets its equation on every row and closes.
fn one_clear(table: &Table, operator: Unary, i: usize, a: usize) -> bool
    requires { (MarkBytes table.now.bytes.now 4 (table.now.parts * all_rows table.now.sizes)) × (i < table.now.parts) × (a < table.now.parts) }
    ensures { result ≡ clear_of table.now.sizes.start table.now.sizes.cycle (marked (all_rows table.now.sizes) table.now.bytes.now) (One operator a) i }
{
    let bytes = table.bytes;
    let sizes = table.sizes;
    let w = sizes.start + sizes.cycle;
    let own = place(w, i, 0);
    let other = place(w, a, 0);
    match operator {
        Unary::Not => opposites(bytes, own, other, w),
        Unary::Next => copies_ahead(bytes, sizes, own, other),
        Unary::Yesterday => copies_behind(bytes, sizes, own, other, false),
        Unary::WeakYesterday => copies_behind(bytes, sizes, own, other, true),
    }
}

// Part `i`, which is an operator over parts `a` and `b`, meets its equation on every row and closes. Where it looks at no row
// beside, `a` takes the place of the mark there.
fn two_clear(table: &Table, operator: Binary, i: usize, a: usize, b: usize) -> bool
    requires { (MarkBytes table.now.bytes.now 4 (table.now.parts * all_rows table.now.sizes)) × (i < table.now.parts) × (a < table.now.parts) × (b < table.now.parts) }
    ensures { result ≡ clear_of table.now.sizes.start table.now.sizes.cycle (marked (all_rows table.now.sizes) table.now.bytes.now) (Two operator a b) i }
{
    let bytes = table.bytes;
    let sizes = table.sizes;
    let w = sizes.start + sizes.cycle;
    let own = place(w, i, 0);
    let left = place(w, a, 0);
    let right = place(w, b, 0);
    match operator {
        Binary::And => steps(bytes, own, left, right, left, w, true),
        Binary::Or => steps(bytes, own, left, right, left, w, false),
        Binary::Until => steps_ahead(bytes, sizes, own, left, right, false),
        Binary::Release => steps_ahead(bytes, sizes, own, left, right, true),
        Binary::Since => steps_behind(bytes, sizes, own, left, right, false),
        Binary::Trigger => steps_behind(bytes, sizes, own, left, right, true),
    }
}

// Part `i`, which is an operator, meets its equation on every row and closes.
pub fn operator_clear(table: &Table, i: usize, operator: Operator) -> bool
    requires { (MarkBytes table.now.bytes.now 4 (table.now.parts * all_rows table.now.sizes)) × (i < table.now.parts) × (names_lower table.now.parts operator ≡ true) }
    ensures { result ≡ clear_of table.now.sizes.start table.now.sizes.cycle (marked (all_rows table.now.sizes) table.now.bytes.now) operator i }
{
    match operator {
        Operator::One(sort, a) => one_clear(table, sort, i, a),
        Operator::Two(sort, a, b) => two_clear(table, sort, i, a, b),
    }
}
