// The lowest witness of a part. `i` is the part's number.
ghost use Rattle.std.specs.Prelude.{◌≡◌, true, ◌<◌};
ghost use Rattle.cltlb.specs.Fits.{view_fits};
ghost use Rattle.refusal.specs.Lowest.{lowest_from};
ghost use Rattle.plan.specs.inner.Sizes.{all_rows};
ghost use Rattle.table.specs.Layout.{marked};
ghost use Rattle.table.specs.inner.Tables.{flipped, Sized};
ghost use Rattle.labelling.specs.Labels.{lowest_witness};
ghost use Rattle.labelling.specs.inner.Rows.{found, lowest_two};

use cltlb::{Binary, Operator, View};
use marks::Table;
use marks::witness::NO_WITNESS;
use plan::Plan;

// The lowest cycle row on which part `b` has the mark 1, or the mark 0 where the opposite is asked for.
fn lowest_row(table: &Table, b: usize, opposite: bool) -> Option<usize>
    requires { b < table.now.parts }
    ensures { result ≡ found (lowest_from (λ row. flipped opposite (marked (all_rows table.now.sizes) table.now.bytes.now b row)) table.now.sizes.start table.now.sizes.cycle) }
{
    let sizes = table.sizes;
    (sizes.start..sizes.start + sizes.cycle).find(|&row| table.mark_at(b, row) ^ opposite)
}

// Of an operator over two parts, of which `b` is the second; `last` is the operator's mark on row W - 1.
fn lowest_two(table: &Table, operator: Binary, last: bool, b: usize) -> Option<usize>
    requires { b < table.now.parts }
    ensures { result ≡ found (lowest_two table.now.sizes.start table.now.sizes.cycle operator last (marked (all_rows table.now.sizes) table.now.bytes.now b)) }
{
    match operator {
        Binary::Until if last => lowest_row(table, b, false),
        Binary::Release if !last => lowest_row(table, b, true),
        _ => None,
    }
}

// The lowest witness of part `i`, which is below 65536: 65535 where there is none.
pub fn lowest_witness(plan: &Plan, table: &[u8], n: usize, i: usize, view: View) -> usize
    requires { (Sized table.now n (all_rows plan.now.sizes)) × (i < n) × (view_fits plan.now.sizes.channels i view ≡ true) }
    ensures { (result ≡ lowest_witness plan.now.bytes.now (marked (all_rows plan.now.sizes) table.now) view i) × (result < 65536) }
{
    let marks = Table {
        bytes: table,
        parts: n,
        sizes: plan.sizes,
    };
    match view {
        View::Atom(_) => NO_WITNESS,
        View::Operator(operator) => match operator {
            Operator::One(_, _) => NO_WITNESS,
            Operator::Two(sort, _, b) => {
                let last = marks.last_mark(i);
                lowest_two(&marks, sort, last, b).unwrap_or(NO_WITNESS)
            }
        },
    }
}
