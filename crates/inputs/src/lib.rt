// The way in of every entry that takes a rule and a plan: both of them read, or the first of refusals 1 to 6.
#![tactic(auto)]

ghost use Rattle.std.specs.Prelude.{◌≡◌, Ok, Err, MatchResult};
ghost use Rattle.inputs.specs.inner.Read.{inputs_read, Ready};

use plan::Plan;
use refusal::Refusal;

// A rule and a plan that clear refusals 1 to 6, and how many parts the rule has.
#[derive(Clone, Copy)]
pub struct Inputs<'a> {
    pub rule: &'a [u8],
    pub plan: Plan<'a>,
    pub parts: usize,
    pub ghost ready: { Ready rule.now plan.bytes.now parts plan.sizes },
}

// Refusals 1 to 3 of the rule, then 4 to 6 of the plan.
pub fn read_inputs<'a>(rule: &'a [u8], plan: &'a [u8]) -> Result<Inputs<'a>, Refusal>
    ensures { MatchResult result
        (λ it. (it.rule.now ≡ rule.now) × (it.plan.bytes.now ≡ plan.now) × (inputs_read rule.now plan.now ≡ Ok (it.parts, it.plan.sizes)))
        (λ r. inputs_read rule.now plan.now ≡ Err r) }
{
    let sheet = rule::check_sheet(rule)?;
    let sizes = plan::check::check_plan(plan, sheet.channels)?;
    let plan = Plan { bytes: plan, sizes };
    Ok(Inputs {
        rule,
        plan,
        parts: sheet.parts,
    })
}
