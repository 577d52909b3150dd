// An atom as the comparison that it is, on a row, over all passes, and at a position.
ghost use Rattle.std.specs.Prelude.{◌≡◌, true, ◌≤◌, ◌<◌};
ghost use Rattle.cltlb.specs.Fits.{atom_fits};
ghost use Rattle.plan.specs.inner.Sizes.{all_rows};
ghost use Rattle.verdict.specs.Comparisons.{comparison_of};
ghost use Rattle.verdict.specs.Rows.{atom_at};
ghost use Rattle.verdict.specs.inner.Reach.{FitsSome, latest};
ghost use Rattle.verdict.specs.inner.Judgement.{Judgement};

use crate::rows::{judge_comparison, test_at};
use crate::weeks::minutes_after;
use crate::{Comparison, Relation, Verdict};
use cltlb::{Atom, Term};
use plan::Plan;

// The comparison that an atom is.
pub fn comparison_of(atom: Atom) -> Comparison
    requires { FitsSome atom }
    ensures { result ≡ comparison_of atom }
{
    match atom {
        Atom::Less(left, right) => Comparison {
            relation: Relation::Below,
            left,
            right,
        },
        Atom::Equal(left, right) => Comparison {
            relation: Relation::Same,
            left,
            right,
        },
        Atom::Window {
            channel,
            shift,
            from,
            to,
        } => Comparison {
            relation: Relation::Within(minutes_after(to as u64, from as u64)),
            left: Term::Reading { channel, shift },
            right: Term::Constant(from as i32),
        },
        Atom::Pinned { channel, shift } => Comparison {
            relation: Relation::Pinned,
            left: Term::Reading { channel, shift },
            right: Term::Constant(0),
        },
    }
}

// The verdict on an atom, on a row.
pub fn judge_row(plan: &Plan, atom: Atom, row: usize) -> Verdict
    requires { (atom_fits plan.now.sizes.channels atom ≡ true) × (row < all_rows plan.now.sizes) }
    ensures { Judgement plan.now.bytes.now atom row result }
{
    judge_comparison(plan, comparison_of(atom), row)
}

// The truth of an atom at position t.
pub fn atom_at(plan: &Plan, atom: Atom, t: usize) -> bool
    requires { (atom_fits plan.now.sizes.channels atom ≡ true) × (t ≤ latest plan.now.sizes) }
    ensures { result ≡ atom_at plan.now.bytes.now atom t }
{
    test_at(plan, comparison_of(atom), t)
}
