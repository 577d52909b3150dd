// The rule sheet: one part of it taken and put, and the whole of it checked.
#![tactic(auto)]

ghost use Rattle.std.specs.Prelude.{◌≡◌, ◌+◌, ◌≤◌, ◌<◌, true, Some, length};
ghost use Rattle.rule.specs.inner.Known.{AllKnown, KindsKnown};
ghost use Rattle.rule.specs.inner.Read.{sheet_read};
ghost use Rattle.rule.specs.inner.Sizes.{sizes_of};
ghost use Rattle.rule.specs.inner.Words.{WordOperand};
ghost use Rattle.rule.specs.Promise.{TakePromise, PutPromise};
ghost use Rattle.rule.specs.Sheet.{untakeable};
ghost use Rattle.rule.specs.Layout.{part_count, channel_count};
ghost use Rattle.rule.specs.Kinds.{operand_of, kind_unknown};
ghost use Rattle.rule.specs.Take.{take_of};
ghost use Rattle.rule.specs.Put.{put_outcome, written};
ghost use Rattle.cltlb.specs.Views.{view_of};
ghost use Rattle.cltlb.specs.Fits.{view_fits};
ghost use Rattle.refusal.specs.First.{at_lowest};
ghost use Rattle.refusal.specs.Outcome.{unrefused};

use cltlb::Part;
use operands::OPERAND_BYTES;
use refusal::Refusal;
use sizes::{KINDS_AT, Sizes};

pub mod kinds;
pub mod operands;
pub mod sizes;
pub mod terms;

// Whether a part fits so many channels at number `n`.
fn part_fits(part: Part, channels: usize, n: usize) -> bool
    ensures { result ≡ view_fits channels n (view_of part) }
{
    cltlb::view_fits(cltlb::view_of(part), channels, n)
}

// The part with number `n` of a sheet that has it. Refused: 2 and 3 on that part.
fn part_at(sheet: &[u8], sizes: Sizes, n: usize) -> Result<Part, Refusal>
    requires { (sizes_of sheet.now ≡ Some sizes) × (n < sizes.parts) }
    ensures { result ≡ take_of sheet.now n }
{
    let kind = sheet[KINDS_AT + n];
    let shape = kinds::shape_of(kind);
    if kinds::is_unknown(shape) {
        return Err(Refusal::Kind { part: n });
    }
    let at = KINDS_AT + sizes.parts + OPERAND_BYTES * n;
    if operands::operand_sound(sheet, at, shape, sizes.channels, n) {
        Ok(kinds::part_on(sheet, at, kind, shape))
    } else {
        Err(Refusal::Operand { part: n })
    }
}

// The part with number `n`. Refused: 1, 12, then 2 and 3 on that part.
pub fn take(sheet: &[u8], n: usize) -> Result<Part, Refusal>
    ensures { TakePromise sheet.now n result }
{
    let sizes = sizes::read_sizes(sheet).ok_or(Refusal::RuleSizes)?;
    if sizes.parts <= n {
        return Err(Refusal::Absent);
    }
    part_at(sheet, sizes, n)
}

// Writes a part of which a put is unrefused: its kind byte and the twelve bytes of its operand.
fn write_part(sheet: &mut [u8], parts: usize, n: usize, part: Part)
    requires { (parts ≡ part_count sheet.old) × (put_outcome sheet.old n part ≡ unrefused) }
    ensures { (sheet.new ≡ written sheet.old n part) × WordOperand (operand_of part) }
{
    sheet[KINDS_AT + n] = kinds::kind_of(part);
    operands::put_operand(
        &mut sheet[KINDS_AT + parts + OPERAND_BYTES * n..],
        cltlb::view_of(part),
    );
}

// Puts a part at number `n`. Refused, with every byte as it was: 1, 12, then 3 on the part.
pub fn put(sheet: &mut [u8], n: usize, part: Part) -> Result<(), Refusal>
    ensures { PutPromise sheet.old n part result sheet.new }
{
    let sizes = sizes::read_sizes(sheet).ok_or(Refusal::RuleSizes)?;
    if sizes.parts <= n {
        return Err(Refusal::Absent);
    }
    if !part_fits(part, sizes.channels, n) {
        return Err(Refusal::Operand { part: n });
    }
    write_part(sheet, sizes.parts, n, part);
    Ok(())
}

// Whether the kind bytes of all parts are known, without leaving early, so that the compiler can take many at a time.
fn kinds_known(sheet: &[u8], parts: usize) -> bool
    requires { 4 + parts ≤ length sheet.now }
    ensures { (result ≡ true) → AllKnown sheet.now parts }
{
    let mut all = true;
    for n in 0..parts {
        all &= !kinds::is_unknown(kinds::shape_of(sheet[KINDS_AT + n]));
    }
    all
}

// The lowest part whose kind byte is none of the fourteen.
fn check_kinds(sheet: &[u8], parts: usize) -> Result<(), Refusal>
    requires { 4 + parts ≤ length sheet.now }
    ensures { result ≡ at_lowest (kind_unknown sheet.now) parts Refusal.Kind }
{
    if kinds_known(sheet, parts) {
        return Ok(());
    }
    for part in 0..parts {
        if kinds::is_unknown(kinds::shape_of(sheet[KINDS_AT + part])) {
            return Err(Refusal::Kind { part });
        }
    }
    Ok(())
}

// The lowest part that cannot be taken, all kinds being known: asked of the bytes, so that no part is made.
fn check_operands(sheet: &[u8], parts: usize, channels: usize) -> Result<(), Refusal>
    requires { KindsKnown sheet.now parts × (channels ≡ channel_count sheet.now) }
    ensures { result ≡ at_lowest (untakeable sheet.now) parts Refusal.Operand }
{
    for n in 0..parts {
        let shape = kinds::shape_of(sheet[KINDS_AT + n]);
        let at = KINDS_AT + parts + OPERAND_BYTES * n;
        if !operands::operand_sound(sheet, at, shape, channels, n) {
            return Err(Refusal::Operand { part: n });
        }
    }
    Ok(())
}

// The whole sheet: refusals 1, 2 and 3, in that order.
pub fn check_sheet(sheet: &[u8]) -> Result<Sizes, Refusal>
    ensures { result ≡ sheet_read sheet.now }
{
    let sizes = sizes::read_sizes(sheet).ok_or(Refusal::RuleSizes)?;
    check_kinds(sheet, sizes.parts)?;
    check_operands(sheet, sizes.parts, sizes.channels)?;
    Ok(sizes)
}
