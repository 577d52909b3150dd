// The marks of one part, made on all rows of a lent mark table from the marks of lower parts, and its lowest witness.
#![tactic(auto)]

pub mod atoms;
pub mod guesses;
pub mod operators;
pub mod witnesses;

ghost use Rattle.std.specs.Prelude.{◌≡◌, true, ◌<◌};
ghost use Rattle.cltlb.specs.Fits.{view_fits};
ghost use Rattle.plan.specs.inner.Sizes.{all_rows};
ghost use Rattle.table.specs.Layout.{marked};
ghost use Rattle.table.specs.inner.Tables.{Sized};
ghost use Rattle.marks.specs.Parts.{closing_outcome};
ghost use Rattle.labelling.specs.Labels.{label_of};
ghost use Rattle.labelling.specs.inner.Rows.{RowsLabelled};

use crate::atoms::label_atom;
use crate::operators::label_operator;
use cltlb::View;
use marks::Table;
use marks::closing::closes_made;
use marks::refusals::closing_outcome;
use plan::Plan;
use refusal::Refusal;

// The marks of part `i` of a table of `n` parts, or where it does not close, as refusal 10 names it.
pub fn label_part(
    plan: &Plan,
    table: &mut [u8],
    n: usize,
    i: usize,
    view: View,
) -> Result<(), Refusal>
    requires { (Sized table.old n (all_rows plan.now.sizes)) × (i < n) × (view_fits plan.now.sizes.channels i view ≡ true) }
    ensures { (result ≡ closing_outcome plan.now.bytes.now (marked (all_rows plan.now.sizes) table.old) view i) × (RowsLabelled table.old table.new (all_rows plan.now.sizes) i result (label_of plan.now.bytes.now (marked (all_rows plan.now.sizes) table.old) view)) }
{
    let sizes = plan.sizes;
    match view {
        View::Atom(atom) => label_atom(plan, table, n, i, atom),
        View::Operator(operator) => {
            label_operator(table, n, sizes, i, operator);
            let made = Table {
                bytes: table,
                parts: n,
                sizes,
            };
            closing_outcome(sizes, i, closes_made(&made, i, operator))
        }
    }
}
