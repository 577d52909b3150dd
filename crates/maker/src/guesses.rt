// The table guessed: the marks of all parts over lanes, the lowest witnesses by them, and the sizes, in a buffer for `n` parts; and what
// the check says of it. An accepted table has the marks that are made, so that a guess that is accepted is the table.
ghost use Rattle.plan.specs.inner.Sizes.{all_rows, most_array};
ghost use Rattle.std.specs.Prelude.{◌≡◌, length};
ghost use Rattle.lanes.specs.inner.Direct.{LongLanes};
ghost use Rattle.table.specs.inner.Tables.{Sized};
ghost use Rattle.maker.specs.inner.Guesses.{Witnessed, Guessed};

use acceptance::check_marks;
use inputs::Inputs;
use labelling::guesses::guess_part;
use labelling::witnesses::lowest_witness;
use lanes::layout::{LANE_BYTES, lay_readings};
use refusal::Refusal;
use table::fills::put_number;

// The marks of all parts over lanes of the readings, the lowest part first.
fn guess_over(inputs: &Inputs, values: &[u8], table: &mut [u8])
    requires { (LongLanes inputs.now.plan.sizes values.now) × (Sized table.old inputs.now.parts (all_rows inputs.now.plan.sizes)) }
    ensures { length table.new ≡ length table.old }
{
    for i in 0..inputs.parts {
        let Ok(part) = rule::take(inputs.rule, i) else {
            return;
        };
        let view = cltlb::view_of(part);
        guess_part(&inputs.plan, values, table, inputs.parts, i, view);
    }
}

// The marks of all parts; the readings are laid out in a lent buffer first.
fn guess_laid(inputs: &Inputs, values: &mut [u8], table: &mut [u8])
    requires { (length values.old ≡ most_array) × (Sized table.old inputs.now.parts (all_rows inputs.now.plan.sizes)) }
    ensures { length table.new ≡ length table.old }
{
    lay_readings(&inputs.plan, values);
    guess_over(inputs, values, table);
}

// The marks of all parts.
fn guess_marks(inputs: &Inputs, table: &mut [u8])
    requires { Sized table.old inputs.now.parts (all_rows inputs.now.plan.sizes) }
    ensures { length table.new ≡ length table.old }
{
    let mut values = [0u8; LANE_BYTES];
    guess_laid(inputs, &mut values[0..], table);
}

// The lowest witness of each part, by the marks that stand there.
fn put_witnesses(inputs: &Inputs, table: &mut [u8])
    requires { Sized table.old inputs.now.parts (all_rows inputs.now.plan.sizes) }
    ensures { Witnessed inputs.now.rule.now inputs.now.plan.bytes.now table.old table.new inputs.now.parts (all_rows inputs.now.plan.sizes) inputs.now.parts }
{
    let sizes = inputs.plan.sizes;
    let w = sizes.start + sizes.cycle;
    for i in 0..inputs.parts {
        let Ok(part) = rule::take(inputs.rule, i) else {
            return;
        };
        let view = cltlb::view_of(part);
        let witness = lowest_witness(&inputs.plan, table, inputs.parts, i, view);
        put_number(table, 4 + inputs.parts * w + 2 * i, witness);
    }
}

// The table guessed, and what the check says of it.
pub fn guess_table(inputs: &Inputs, table: &mut [u8]) -> Result<bool, Refusal>
    requires { Sized table.old inputs.now.parts (all_rows inputs.now.plan.sizes) }
    ensures { Guessed inputs.now.rule.now inputs.now.plan.bytes.now table.old table.new inputs.now.parts result }
{
    let sizes = inputs.plan.sizes;
    guess_marks(inputs, table);
    put_witnesses(inputs, table);
    put_number(table, 0, inputs.parts);
    put_number(table, 2, sizes.start + sizes.cycle);
    check_marks(inputs, table)
}
