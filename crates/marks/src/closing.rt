// Closing, the consistency of the loop, of an operator: by its truth, from the marks of the parts that it names.
ghost use Rattle.std.specs.Prelude.{◌≡◌, true, ◌<◌};
ghost use Rattle.cltlb.specs.Fits.{names_lower};
ghost use Rattle.plan.specs.inner.Sizes.{all_rows};
ghost use Rattle.table.specs.Layout.{marked};
ghost use Rattle.marks.specs.Equations.{watched_truth};
ghost use Rattle.marks.specs.Parts as parts;
ghost use Rattle.marks.specs.Parts.{running, turns_round};
ghost use Rattle.marks.specs.inner.Tables.{TruthMarked};

use crate::Table;
use crate::equations::step_on;
use crate::operators::{Beside, beside_of};
use cltlb::Operator;

// What an operator sees of a row, by its own truth there: the mark of the part that it names, or that truth.
fn watched_truth(table: &Table, operator: Operator, own: bool, row: usize) -> bool
    requires { (names_lower table.now.parts operator ≡ true) × (row < all_rows table.now.sizes) }
    ensures { result ≡ watched_truth (marked (all_rows table.now.sizes) table.now.bytes.now) operator own row }
{
    match operator {
        Operator::One(_, a) => table.mark_at(a, row),
        Operator::Two(_, _, _) => own,
    }
}

// The truth on a row of an operator that looks back, row after row from row 0 on; `first` counts before row 0.
fn truth_on(table: &Table, operator: Operator, first: bool, row: usize) -> bool
    requires { (names_lower table.now.parts operator ≡ true) × (row < all_rows table.now.sizes) }
    ensures { result ≡ running (marked (all_rows table.now.sizes) table.now.bytes.now) operator first row }
{
    let mut truth = step_on(table, operator, 0, first);
    for at in 0..row {
        let before = watched_truth(table, operator, truth, at);
        truth = step_on(table, operator, at + 1, before);
    }
    truth
}

// The equation for a row above 0 also holds on row P with row W - 1 as the row before; `start` and `end` are the truth there.
fn turns_round(table: &Table, operator: Operator, start: bool, end: bool) -> bool
    requires { names_lower table.now.parts operator ≡ true }
    ensures { result ≡ turns_round table.now.sizes.start table.now.sizes.cycle (marked (all_rows table.now.sizes) table.now.bytes.now) operator start end }
{
    let sizes = table.sizes;
    let before = watched_truth(table, operator, end, sizes.start + sizes.cycle - 1);
    start == step_on(table, operator, sizes.start, before)
}

// An operator closes, whatever its own marks are.
pub fn closes(table: &Table, operator: Operator) -> bool
    requires { names_lower table.now.parts operator ≡ true }
    ensures { result ≡ parts.closes table.now.sizes.start table.now.sizes.cycle (marked (all_rows table.now.sizes) table.now.bytes.now) operator }
{
    match beside_of(operator) {
        Beside::After => true,
        Beside::Before(first) => {
            let sizes = table.sizes;
            let start = truth_on(table, operator, first, sizes.start);
            let end = truth_on(table, operator, first, sizes.start + sizes.cycle - 1);
            turns_round(table, operator, start, end)
        }
    }
}

// Part `i`, an operator whose marks are made, closes: its marks are its truth. One function for both, with the truth as a closure, would
// need a contract longer than their bodies.
pub fn closes_made(table: &Table, i: usize, operator: Operator) -> bool
    requires { (i < table.now.parts) × (names_lower table.now.parts operator ≡ true) × (TruthMarked table.now.sizes.start table.now.sizes.cycle (marked (all_rows table.now.sizes) table.now.bytes.now) operator i) }
    ensures { result ≡ parts.closes table.now.sizes.start table.now.sizes.cycle (marked (all_rows table.now.sizes) table.now.bytes.now) operator }
{
    match beside_of(operator) {
        Beside::After => true,
        Beside::Before(_) => {
            let start = table.mark_at(i, table.sizes.start);
            let end = table.last_mark(i);
            turns_round(table, operator, start, end)
        }
    }
}
