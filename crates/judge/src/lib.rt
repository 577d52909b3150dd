// Judge: one atom on one row, over all passes.
#![tactic(auto)]

ghost use Rattle.std.specs.Prelude.{◌≡◌};
ghost use Rattle.judge.specs.Judge.{judge_of, JudgePromise};

use cltlb::View;
use inputs::Inputs;
use refusal::Refusal;
use verdict::Verdict;

// Judge, of a rule of `n` parts and a plan that clear 1 to 6.
fn judge_part(inputs: &Inputs, part: usize, row: usize) -> Result<Verdict, Refusal>
    ensures { result ≡ judge_of inputs.now.rule.now inputs.now.plan.bytes.now part row }
{
    let sizes = inputs.plan.sizes;
    let found = rule::take(inputs.rule, part)?;
    if sizes.start + sizes.cycle <= row {
        return Err(Refusal::Absent);
    }
    match cltlb::view_of(found) {
        View::Atom(atom) => Ok(verdict::atoms::judge_row(&inputs.plan, atom, row)),
        View::Operator(_) => Err(Refusal::Absent),
    }
}

// The verdict on part number `part` of a rule on row number `row` of a plan. Refused: 1 to 6, then 12.
pub fn judge(rule: &[u8], plan: &[u8], part: usize, row: usize) -> Result<Verdict, Refusal>
    ensures { JudgePromise rule.now plan.now part row result }
{
    let inputs = inputs::read_inputs(rule, plan)?;
    judge_part(&inputs, part, row)
}
