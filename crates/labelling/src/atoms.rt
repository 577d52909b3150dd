// The marks of an atom on all rows, by its verdicts, in a table of `n` parts. `i` is the part's number.
ghost use Rattle.std.specs.Prelude.{◌≡◌, true, ◌<◌};
ghost use Rattle.cltlb.specs.Fits.{atom_fits};
ghost use Rattle.plan.specs.inner.Sizes.{all_rows};
ghost use Rattle.verdict.specs.Comparisons.{comparison_of};
ghost use Rattle.verdict.specs.Rows.{atom_at};
ghost use Rattle.table.specs.inner.Tables.{Sized};
ghost use Rattle.marks.specs.Parts.{steady_outcome};
ghost use Rattle.labelling.specs.inner.Rows.{is_true, RowsLabelled};

use cltlb::Atom;
use plan::Plan;
use refusal::Refusal;
use table::bytes::place;
use table::fills::put_mark;
use verdict::atoms::comparison_of;
use verdict::rows::judge_comparison;
use verdict::{Comparison, Verdict, is_changes};

fn is_true(verdict: Verdict) -> bool
    ensures { result ≡ is_true verdict }
{
    verdict == Verdict::AlwaysTrue
}

// The marks of the comparison that an atom is, or the lowest cycle row on which it changes.
fn label_rows(
    plan: &Plan,
    table: &mut [u8],
    n: usize,
    i: usize,
    atom: Atom,
    comparison: Comparison,
) -> Result<(), Refusal>
    requires { (Sized table.old n (all_rows plan.now.sizes)) × (i < n) × (atom_fits plan.now.sizes.channels atom ≡ true) × (comparison ≡ comparison_of atom) }
    ensures { (result ≡ steady_outcome plan.now.bytes.now atom i) × (RowsLabelled table.old table.new (all_rows plan.now.sizes) i result (atom_at plan.now.bytes.now atom)) }
{
    let sizes = plan.sizes;
    let w = sizes.start + sizes.cycle;
    let own = place(w, i, 0);
    for row in 0..w {
        let verdict = judge_comparison(plan, comparison, row);
        if is_changes(verdict) {
            return Err(Refusal::Closing { part: i, row });
        }
        put_mark(table, own + row, is_true(verdict));
    }
    Ok(())
}

// The marks of an atom, or the lowest cycle row on which it changes.
pub fn label_atom(
    plan: &Plan,
    table: &mut [u8],
    n: usize,
    i: usize,
    atom: Atom,
) -> Result<(), Refusal>
    requires { (Sized table.old n (all_rows plan.now.sizes)) × (i < n) × (atom_fits plan.now.sizes.channels atom ≡ true) }
    ensures { (result ≡ steady_outcome plan.now.bytes.now atom i) × (RowsLabelled table.old table.new (all_rows plan.now.sizes) i result (atom_at plan.now.bytes.now atom)) }
{
    label_rows(plan, table, n, i, atom, comparison_of(atom))
}
