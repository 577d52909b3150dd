// The maker: the mark table of a rule and a plan, written into a lent buffer, or refused.
#![tactic(auto)]

pub mod guesses;

ghost use Rattle.std.specs.Prelude.{◌≡◌, ◌+◌, ◌<◌};
ghost use Rattle.refusal.specs.Report.{report_of};
ghost use Rattle.plan.specs.inner.Sizes.{all_rows};
ghost use Rattle.table.specs.inner.Tables.{Sized};
ghost use Rattle.maker.specs.Make.{open_outcome, closings_outcome, make_of, bytes_after};
ghost use Rattle.maker.specs.Promise.{MakePromise};
ghost use Rattle.maker.specs.inner.Parts.{MadeBelow, MadeTo};

use crate::guesses::guess_table;
use inputs::Inputs;
use labelling::label_part;
use labelling::witnesses::lowest_witness;
use refusal::Refusal;
use table::bytes::mark_at;
use table::fills::{clear, put_number};

// Part `i` of a table of `n` parts, of which the lower ones are made: its marks and its witness, or refusal 14.
fn make_part(inputs: &Inputs, table: &mut [u8], i: usize) -> Result<(), Refusal>
    requires { (MadeBelow inputs.now.rule.now inputs.now.plan.bytes.now table.old inputs.now.parts (all_rows inputs.now.plan.sizes) i) × (i < inputs.now.parts) }
    ensures { (result ≡ open_outcome inputs.now.rule.now inputs.now.plan.bytes.now i) × (MadeTo inputs.now.rule.now inputs.now.plan.bytes.now table.old table.new inputs.now.parts (all_rows inputs.now.plan.sizes) (i + 1) result) }
{
    let sizes = inputs.plan.sizes;
    let w = sizes.start + sizes.cycle;
    let part = rule::take(inputs.rule, i)?;
    let view = cltlb::view_of(part);
    if let Err(closing) = label_part(&inputs.plan, table, inputs.parts, i, view) {
        return Err(no_table(closing));
    }
    let witness = lowest_witness(&inputs.plan, table, inputs.parts, i, view);
    put_number(table, 4 + inputs.parts * w + 2 * i, witness);
    Ok(())
}

// Refusal 14, by the part and the row at which a part does not close.
fn no_table(closing: Refusal) -> Refusal
    ensures { result ≡ Refusal.NoTable (report_of closing).part (report_of closing).row }
{
    let report = refusal::report_of(closing);
    Refusal::NoTable {
        part: report.part,
        row: report.row,
    }
}

// All parts, the lowest first.
fn make_parts(inputs: &Inputs, table: &mut [u8]) -> Result<(), Refusal>
    requires { Sized table.old inputs.now.parts (all_rows inputs.now.plan.sizes) }
    ensures { (result ≡ closings_outcome inputs.now.rule.now inputs.now.plan.bytes.now) × (MadeTo inputs.now.rule.now inputs.now.plan.bytes.now table.old table.new inputs.now.parts (all_rows inputs.now.plan.sizes) inputs.now.parts result) }
{
    for i in 0..inputs.parts {
        make_part(inputs, table, i)?;
    }
    Ok(())
}

// The table of a rule of `n` parts and a plan that clear 1 to 6: the one guessed, where the check accepts it, and else part by part.
fn make_table(inputs: &Inputs, marks: &mut [u8]) -> Result<bool, Refusal>
    ensures { (result ≡ make_of inputs.now.rule.now inputs.now.plan.bytes.now marks.old) × (marks.new ≡ bytes_after inputs.now.rule.now inputs.now.plan.bytes.now marks.old) }
{
    let sizes = inputs.plan.sizes;
    let w = sizes.start + sizes.cycle;
    if marks.len() != 4 + inputs.parts * w + 2 * inputs.parts {
        return Err(Refusal::BufferLength);
    }
    if let Ok(verdict) = guess_table(inputs, marks) {
        return Ok(verdict);
    }
    if let Err(refusal) = make_parts(inputs, marks) {
        clear(marks);
        return Err(refusal);
    }
    put_number(marks, 0, inputs.parts);
    put_number(marks, 2, w);
    Ok(mark_at(marks, inputs.parts, w, inputs.parts - 1, 0))
}

// The mark table of a rule and a plan, each witness the lowest that serves: made, with the whole rule's truth at position 0, or the
// first refusal that applies: 1 to 6, 13, then 14.
pub fn make(rule: &[u8], plan: &[u8], marks: &mut [u8]) -> Result<bool, Refusal>
    ensures { MakePromise rule.now plan.now marks.old marks.new result }
{
    let inputs = inputs::read_inputs(rule, plan)?;
    make_table(&inputs, marks)
}
