// The whole check: a rule sheet, a plan and a mark table, accepted with the rule's truth at position 0, or refused.
#![tactic(auto)]

ghost use Rattle.std.specs.Prelude.{◌≡◌, cond, length};
ghost use Rattle.plan.specs.Layout.{readings};
ghost use Rattle.plan.specs.inner.Sizes.{all_rows, all_stored, most_array};
ghost use Rattle.plan.specs.inner.Drifts.{Still};
ghost use Rattle.lanes.specs.inner.Lanes.{Laid, Lanes};
ghost use Rattle.acceptance.specs.Check.{parts_outcome, check_of};
ghost use Rattle.acceptance.specs.Promise.{CheckPromise};
ghost use Rattle.acceptance.specs.inner.Parts.{Prepared};

use inputs::Inputs;
use lanes::layout::{LANE_BYTES, lay_drifts, lay_readings};
use marks::refusals::{breaks_on, check_closing, check_witness, surely_clear};
use refusal::Refusal;
use table::bytes::{check_table, mark_at};

// One number or the other.
fn choose(first: bool, x: usize, y: usize) -> usize
    ensures { result ≡ cond first x y }
{
    if first { x } else { y }
}

// Refusals 9 to 11 of a table of `n` parts, the lowest part first, each with all its rows; within a part 10 comes before 9. `values`
// and `drifts` are the plan's lanes; where it is `still`, nothing drifts in the cycle.
fn check_parts(
    inputs: &Inputs,
    values: &[u8],
    drifts: &[u8],
    still: bool,
    table: &[u8],
) -> Result<(), Refusal>
    requires { (Prepared inputs.now.rule.now inputs.now.plan.bytes.now table.now inputs.now.parts inputs.now.plan.sizes) × (Lanes inputs.now.plan.bytes.now inputs.now.plan.sizes values.now drifts.now still) }
    ensures { result ≡ parts_outcome inputs.now.rule.now inputs.now.plan.bytes.now table.now }
{
    let sizes = inputs.plan.sizes;
    let w = sizes.start + sizes.cycle;
    let mut answer = Ok(());
    'parts: for i in 0..inputs.parts {
        let part = rule::take(inputs.rule, i)?;
        let view = cltlb::view_of(part);
        let sure = surely_clear(
            &inputs.plan,
            values,
            drifts,
            still,
            table,
            inputs.parts,
            i,
            view,
        );
        let closing = check_closing(&inputs.plan, table, inputs.parts, i, view, sure);
        if let Err(plan_fault) = closing {
            answer = Err(plan_fault);
            break 'parts;
        }
        for row in 0..choose(sure, 0, w) {
            if breaks_on(&inputs.plan, table, inputs.parts, i, view, row) {
                answer = Err(Refusal::Equation { part: i, row });
                break 'parts;
            }
        }
        let witness = check_witness(&inputs.plan, table, inputs.parts, i, view);
        if let Err(mark_fault) = witness {
            answer = Err(mark_fault);
            break 'parts;
        }
    }
    answer
}

// Refusals 9 to 11, where nothing drifts in the cycle; lanes of drifts are not looked at.
fn check_still(inputs: &Inputs, values: &[u8], table: &[u8]) -> Result<(), Refusal>
    requires { (Prepared inputs.now.rule.now inputs.now.plan.bytes.now table.now inputs.now.parts inputs.now.plan.sizes) × (Laid (readings inputs.now.plan.bytes.now) inputs.now.plan.sizes.channels (all_stored inputs.now.plan.sizes) values.now) × (Still inputs.now.plan.bytes.now inputs.now.plan.sizes.start (all_rows inputs.now.plan.sizes)) }
    ensures { result ≡ parts_outcome inputs.now.rule.now inputs.now.plan.bytes.now table.now }
{
    check_parts(inputs, values, values, true, table)
}

// Refusals 9 to 11; the drifts are laid out in a lent buffer.
fn check_drifting(
    inputs: &Inputs,
    values: &[u8],
    drifts: &mut [u8],
    table: &[u8],
) -> Result<(), Refusal>
    requires { (Prepared inputs.now.rule.now inputs.now.plan.bytes.now table.now inputs.now.parts inputs.now.plan.sizes) × (Laid (readings inputs.now.plan.bytes.now) inputs.now.plan.sizes.channels (all_stored inputs.now.plan.sizes) values.now) × (length drifts.old ≡ most_array) }
    ensures { result ≡ parts_outcome inputs.now.rule.now inputs.now.plan.bytes.now table.now }
{
    lay_drifts(&inputs.plan, drifts);
    check_parts(inputs, values, drifts, false, table)
}

// Refusals 9 to 11, over lanes of the readings; those of the drifts are laid out only where something drifts in the cycle.
fn check_over(inputs: &Inputs, values: &[u8], table: &[u8]) -> Result<(), Refusal>
    requires { (Prepared inputs.now.rule.now inputs.now.plan.bytes.now table.now inputs.now.parts inputs.now.plan.sizes) × (Laid (readings inputs.now.plan.bytes.now) inputs.now.plan.sizes.channels (all_stored inputs.now.plan.sizes) values.now) }
    ensures { result ≡ parts_outcome inputs.now.rule.now inputs.now.plan.bytes.now table.now }
{
    let sizes = inputs.plan.sizes;
    let w = sizes.start + sizes.cycle;
    if inputs.plan.still(sizes.start, w) {
        return check_still(inputs, values, table);
    }
    let mut drifts = [0u8; LANE_BYTES];
    check_drifting(inputs, values, &mut drifts[0..], table)
}

// Refusals 9 to 11; the readings are laid out in a lent buffer first.
fn check_laid(inputs: &Inputs, values: &mut [u8], table: &[u8]) -> Result<(), Refusal>
    requires { (Prepared inputs.now.rule.now inputs.now.plan.bytes.now table.now inputs.now.parts inputs.now.plan.sizes) × (length values.old ≡ most_array) }
    ensures { result ≡ parts_outcome inputs.now.rule.now inputs.now.plan.bytes.now table.now }
{
    lay_readings(&inputs.plan, values);
    check_over(inputs, values, table)
}

// The check, of a rule of `n` parts and a plan that clear 1 to 6.
pub fn check_marks(inputs: &Inputs, marks: &[u8]) -> Result<bool, Refusal>
    ensures { result ≡ check_of inputs.now.rule.now inputs.now.plan.bytes.now marks.now }
{
    let sizes = inputs.plan.sizes;
    let w = sizes.start + sizes.cycle;
    check_table(marks, inputs.parts, w)?;
    let mut values = [0u8; LANE_BYTES];
    check_laid(inputs, &mut values[0..], marks)?;
    Ok(mark_at(marks, inputs.parts, w, inputs.parts - 1, 0))
}

// The check of a rule sheet, a plan and a mark table: accepted, with the whole rule's truth at position 0, or the first refusal that
// applies: 1 to 8, then 9 to 11 part by part.
pub fn check(rule: &[u8], plan: &[u8], marks: &[u8]) -> Result<bool, Refusal>
    ensures { CheckPromise rule.now plan.now marks.now result }
{
    let inputs = inputs::read_inputs(rule, plan)?;
    check_marks(&inputs, marks)
}
