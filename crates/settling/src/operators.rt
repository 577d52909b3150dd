// The marks of an operator on the rows of a layout, in words, and whether it closes there, by the marks of the lower parts that it
// names. `i` is the part's number.
ghost use Rattle.std.specs.Prelude.{◌≡◌, true, ◌+◌, ◌-◌, ◌≤◌, ◌<◌};
ghost use Rattle.cltlb.specs.Fits.{names_lower};
ghost use Rattle.plan.specs.inner.Sizes.{all_rows};
ghost use Rattle.cltlb.specs.declared.Operator.TheVariants.{One, Two};
ghost use Rattle.marks.specs.declared.operators.Beside.TheVariants.{After, Before};
ghost use Rattle.marks.specs.Equations.{beside_of, step_on, watched_truth};
ghost use Rattle.marks.specs.Parts.{running};
ghost use Rattle.labelling.specs.Labels.{end_of, following, operator_label};
ghost use Rattle.words.specs.inner.Words.{most_parts, most_rows, mark_at, Room};
ghost use Rattle.words.specs.inner.Written.{Marked};
ghost use Rattle.settling.specs.inner.Seen.{seen_back, SeenAhead};
ghost use Rattle.settling.specs.inner.Scratch.{OperatorTried};

use crate::copies::{mark_next, try_before};
use crate::marking::put_each;
use cltlb::{Binary, Operator, Unary};
use marks::operators::{mark_one, mark_two};
use plan::sizes::Sizes;
use words::parts::{mark_at, put_mark};

// The mark of an operator on a row, by what it sees beside the row.
fn step_on(scratch: &[u8], operator: Operator, row: usize, beside: bool) -> bool
    requires { (Room scratch.now) × (names_lower most_parts operator ≡ true) × (row < most_rows) }
    ensures { result ≡ step_on (mark_at scratch.now) operator row beside }
{
    match operator {
        Operator::One(sort, a) => mark_one(sort, mark_at(scratch, a, row), beside),
        Operator::Two(sort, a, b) => mark_two(
            sort,
            mark_at(scratch, a, row),
            mark_at(scratch, b, row),
            beside,
        ),
    }
}

// What it sees of a row, by its own truth there: the mark of the part that it names, or that truth.
fn watched_truth(scratch: &[u8], operator: Operator, own: bool, row: usize) -> bool
    requires { (Room scratch.now) × (names_lower most_parts operator ≡ true) × (row < most_rows) }
    ensures { result ≡ watched_truth (mark_at scratch.now) operator own row }
{
    match operator {
        Operator::One(_, a) => mark_at(scratch, a, row),
        Operator::Two(_, _, _) => own,
    }
}

// What counts behind the rows that are followed.
fn end_of(operator: Operator) -> bool
    ensures { result ≡ end_of operator }
{
    match operator {
        Operator::One(_, _) => false,
        Operator::Two(sort, _, _) => match sort {
            Binary::And => false,
            Binary::Or => false,
            Binary::Until => false,
            Binary::Release => true,
            Binary::Since => false,
            Binary::Trigger => false,
        },
    }
}

// S or T: its marks on the first `count` rows, from row 0 on, before which it sees `first`. What it sees of the last.
fn mark_onward(scratch: &mut [u8], i: usize, operator: Operator, first: bool, count: usize) -> bool
    requires { (Room scratch.old) × (i < most_parts) × (names_lower i operator ≡ true) × (count ≤ most_rows) }
    ensures { (result ≡ seen_back (mark_at scratch.old) operator first count) × (Marked scratch.old scratch.new i 0 count (running (mark_at scratch.old) operator first)) }
{
    let mut beside = first;
    for row in 0..count {
        let truth = step_on(scratch, operator, row, beside);
        beside = watched_truth(scratch, operator, truth, row);
        put_mark(scratch, i, row, truth);
    }
    beside
}

// U or R, followed once round the cycle: what it sees of row P.
fn seen_round(scratch: &[u8], laid: Sizes, operator: Operator) -> bool
    requires { (Room scratch.now) × (names_lower most_parts operator ≡ true) × (1 ≤ laid.cycle) × (all_rows laid ≤ most_rows) }
    ensures { result ≡ watched_truth (mark_at scratch.now) operator (following laid.start laid.cycle (mark_at scratch.now) operator laid.cycle laid.start) laid.start }
{
    let start = laid.start;
    let mut beside = watched_truth(scratch, operator, end_of(operator), start);
    for row in (start..start + laid.cycle).rev() {
        let truth = step_on(scratch, operator, row, beside);
        beside = watched_truth(scratch, operator, truth, row);
    }
    beside
}

// Its marks on all rows, the last one first, beside which it sees `end`.
fn mark_back(scratch: &mut [u8], laid: Sizes, i: usize, operator: Operator, end: bool)
    requires { (Room scratch.old) × (i < most_parts) × (names_lower i operator ≡ true) × (1 ≤ laid.cycle) × (all_rows laid ≤ most_rows) × (SeenAhead laid.start laid.cycle (mark_at scratch.old) operator (all_rows laid) end) }
    ensures { Marked scratch.old scratch.new i 0 (all_rows laid) (λ row. following laid.start laid.cycle (mark_at scratch.old) operator (laid.start + laid.cycle - row + laid.cycle) row) }
{
    let mut beside = end;
    for row in (0..laid.start + laid.cycle).rev() {
        let truth = step_on(scratch, operator, row, beside);
        beside = watched_truth(scratch, operator, truth, row);
        put_mark(scratch, i, row, truth);
    }
}

// U or R: its marks on all rows.
fn mark_ahead(scratch: &mut [u8], laid: Sizes, i: usize, operator: Operator)
    requires { (Room scratch.old) × (i < most_parts) × (names_lower i operator ≡ true) × (beside_of operator ≡ After) × (1 ≤ laid.cycle) × (all_rows laid ≤ most_rows) }
    ensures { Marked scratch.old scratch.new i 0 (all_rows laid) (operator_label laid.start laid.cycle (mark_at scratch.old) operator) }
{
    let end = seen_round(scratch, laid, operator);
    mark_back(scratch, laid, i, operator, end);
}

// S or T, before row 0 of which `first` counts: its marks on all rows, and whether it closes.
fn try_back(scratch: &mut [u8], laid: Sizes, i: usize, operator: Operator, first: bool) -> bool
    requires { (Room scratch.old) × (i < most_parts) × (names_lower i operator ≡ true) × (beside_of operator ≡ Before first) × (1 ≤ laid.cycle) × (all_rows laid ≤ most_rows) }
    ensures { OperatorTried laid.start laid.cycle scratch.old scratch.new i operator result }
{
    let p = laid.start;
    let end = mark_onward(scratch, i, operator, first, p + laid.cycle);
    mark_at(scratch, i, p) == step_on(scratch, operator, p, end)
}

// An operator over one part.
fn try_one(scratch: &mut [u8], laid: Sizes, i: usize, sort: Unary, a: usize) -> bool
    requires { (Room scratch.old) × (i < most_parts) × (a < i) × (1 ≤ laid.cycle) × (all_rows laid ≤ most_rows) }
    ensures { OperatorTried laid.start laid.cycle scratch.old scratch.new i (One sort a) result }
{
    match sort {
        Unary::Not => {
            put_each(
                scratch,
                i,
                laid.start + laid.cycle,
                |marks, row| !mark_at(marks, a, row),
            );
            true
        }
        Unary::Next => {
            mark_next(scratch, laid, i, a);
            true
        }
        Unary::Yesterday => try_before(scratch, laid, i, a, false),
        Unary::WeakYesterday => try_before(scratch, laid, i, a, true),
    }
}

// An operator over two parts.
fn try_two(scratch: &mut [u8], laid: Sizes, i: usize, sort: Binary, a: usize, b: usize) -> bool
    requires { (Room scratch.old) × (i < most_parts) × (a < i) × (b < i) × (1 ≤ laid.cycle) × (all_rows laid ≤ most_rows) }
    ensures { OperatorTried laid.start laid.cycle scratch.old scratch.new i (Two sort a b) result }
{
    let operator = Operator::Two(sort, a, b);
    match sort {
        Binary::And => {
            put_each(
                scratch,
                i,
                laid.start + laid.cycle,
                |marks, row| mark_at(marks, a, row) & mark_at(marks, b, row),
            );
            true
        }
        Binary::Or => {
            put_each(
                scratch,
                i,
                laid.start + laid.cycle,
                |marks, row| mark_at(marks, a, row) | mark_at(marks, b, row),
            );
            true
        }
        Binary::Until => {
            mark_ahead(scratch, laid, i, operator);
            true
        }
        Binary::Release => {
            mark_ahead(scratch, laid, i, operator);
            true
        }
        Binary::Since => try_back(scratch, laid, i, operator, false),
        Binary::Trigger => try_back(scratch, laid, i, operator, true),
    }
}

// An operator closes or not, and if so, its marks on all rows.
pub fn try_operator(scratch: &mut [u8], laid: Sizes, i: usize, operator: Operator) -> bool
    requires { (Room scratch.old) × (i < most_parts) × (names_lower i operator ≡ true) × (1 ≤ laid.cycle) × (all_rows laid ≤ most_rows) }
    ensures { OperatorTried laid.start laid.cycle scratch.old scratch.new i operator result }
{
    match operator {
        Operator::One(sort, a) => try_one(scratch, laid, i, sort, a),
        Operator::Two(sort, a, b) => try_two(scratch, laid, i, sort, a, b),
    }
}
