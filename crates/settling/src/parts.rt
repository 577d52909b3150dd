// One part of a rule, tried on the layout of so many passes, whose rows are the first positions of the plan's run. Nothing of the
// layout is written: the scratch holds marks.
ghost use Rattle.std.specs.Prelude.{◌≡◌, true, ◌+◌, ◌<◌};
ghost use Rattle.cltlb.specs.Fits.{atom_fits, view_fits};
ghost use Rattle.cltlb.specs.declared.View.TheVariants as view;
ghost use Rattle.laid_out.specs.LaidOut.{laid_out, can_be_laid};
ghost use Rattle.words.specs.inner.Words.{most_parts, Room};
ghost use Rattle.settling.specs.inner.Scratch.{PartTried, MadeTo, closes_on};

use crate::comparisons::{put_marks, steady};
use crate::operators::try_operator;
use cltlb::{Atom, View};
use inputs::Inputs;
use laid_out::numbers::laid_sizes;
use plan::Plan;
use verdict::atoms::comparison_of;

// A comparison: its verdicts on the cycle rows, from that pass on, come first, and its marks once it is steady.
fn try_atom(plan: &Plan, scratch: &mut [u8], passes: usize, i: usize, atom: Atom) -> bool
    requires { (can_be_laid plan.now.bytes.now passes ≡ true) × (Room scratch.old) × (i < most_parts) × (atom_fits plan.now.sizes.channels atom ≡ true) }
    ensures { PartTried (laid_out plan.now.bytes.now passes) scratch.old scratch.new i (view.Atom atom) result }
{
    let comparison = comparison_of(atom);
    let laid = laid_sizes(plan.sizes, passes);
    let start = laid.start;
    if !steady(plan, comparison, start) {
        return false;
    }
    put_marks(scratch, plan, comparison, i, passes, start + laid.cycle);
    true
}

// A part by its view.
fn try_view(plan: &Plan, scratch: &mut [u8], passes: usize, i: usize, view: View) -> bool
    requires { (can_be_laid plan.now.bytes.now passes ≡ true) × (Room scratch.old) × (i < most_parts) × (view_fits plan.now.sizes.channels i view ≡ true) }
    ensures { PartTried (laid_out plan.now.bytes.now passes) scratch.old scratch.new i view result }
{
    match view {
        View::Atom(atom) => try_atom(plan, scratch, passes, i, atom),
        View::Operator(operator) => try_operator(
            scratch,
            laid_sizes(plan.sizes, passes),
            i,
            operator,
        ),
    }
}

// Part `i` of a rule of `n` parts, of which the marks of the lower ones are made: whether it closes, and if so, its marks.
pub fn try_part(inputs: &Inputs, scratch: &mut [u8], passes: usize, i: usize) -> bool
    requires { (can_be_laid inputs.now.plan.bytes.now passes ≡ true) × (MadeTo inputs.now.rule.now (laid_out inputs.now.plan.bytes.now passes) scratch.old i) × (i < inputs.now.parts) }
    ensures { (result ≡ closes_on inputs.now.rule.now (laid_out inputs.now.plan.bytes.now passes) i) × (MadeTo inputs.now.rule.now (laid_out inputs.now.plan.bytes.now passes) scratch.new i) × (result ≡ true → MadeTo inputs.now.rule.now (laid_out inputs.now.plan.bytes.now passes) scratch.new (i + 1)) }
{
    let Ok(part) = rule::take(inputs.rule, i) else {
        return false;
    };
    try_view(&inputs.plan, scratch, passes, i, cltlb::view_of(part))
}
