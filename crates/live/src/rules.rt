// Rules that can be watched: refusals 1 to 3 and 16.
ghost use Rattle.std.specs.Prelude.{◌≡◌, true};
ghost use Rattle.rule.specs.Take.{views_of};
ghost use Rattle.plan.specs.Layout.{any_below};
ghost use Rattle.past.specs.Ahead.{view_ahead};
ghost use Rattle.live.specs.inner.Rules.{rule_read};

use past::view_ahead;
use refusal::Refusal;
use rule::sizes::Sizes;
use rule::{check_sheet, take};

// Part i of a sheet looks at a later row; a part that is not there does not.
fn part_ahead(sheet: &[u8], i: usize) -> bool
    ensures { result ≡ view_ahead (views_of sheet.now i) }
{
    match take(sheet, i) {
        Ok(part) => view_ahead(cltlb::view_of(part)),
        Err(_) => false,
    }
}

// One of the first n parts does.
fn any_ahead(sheet: &[u8], n: usize) -> bool
    ensures { result ≡ any_below (λ i. view_ahead (views_of sheet.now i)) n }
{
    for i in 0..n {
        if part_ahead(sheet, i) {
            return true;
        }
    }
    false
}

// The sizes of a rule that can be watched over v channels, or why it cannot.
pub fn read_rule(sheet: &[u8], v: usize) -> Result<Sizes, Refusal>
    ensures { result ≡ rule_read v sheet.now }
{
    let sizes = check_sheet(sheet)?;
    if sizes.channels != v {
        return Err(Refusal::Unwatchable);
    }
    if any_ahead(sheet, sizes.parts) {
        return Err(Refusal::Unwatchable);
    }
    Ok(sizes)
}
