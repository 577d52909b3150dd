// The plan with n passes of its cycle laid out, written over the front of a buffer: sizes, then tops, then readings, then drifts. Each
// writer writes at the front of the part that it is lent.
ghost use Rattle.std.specs.Prelude.{◌≡◌, true, ◌++◌, ◌*◌, ◌≤◌, ◌<◌, length, drop};
ghost use Rattle.fields.specs.Pieces.{pieces};
ghost use Rattle.plan.specs.Layout.{sizes_length, array_length, top_of};
ghost use Rattle.plan.specs.Bytes.{word, head_of, tops_of, array_of};
ghost use Rattle.plan.specs.inner.Sizes.{all_stored};
ghost use Rattle.laid_out.specs.LaidOut.{laid_out, can_be_laid};
ghost use Rattle.laid_out.specs.inner.LaidSizes.{laid_sizes, most_plan};
ghost use Rattle.laid_out.specs.inner.LaidNumbers.{laid_number};
ghost use Rattle.laid_out.specs.inner.Fronted.{fronted};

use crate::numbers::{Array, laid_number, laid_sizes, pattern_of};
use fields::{put_u16, put_u32};
use plan::Plan;
use plan::layout::{SIZES_LENGTH, drifts_start, head_length};
use plan::sizes::Sizes;

// The bytes of the largest plan, which a buffer for a layout has.
pub const MOST_PLAN: usize = 16680;

// Sizes.
fn put_head(t: &mut [u8], sizes: Sizes)
    requires { (sizes_length ≤ length t.old) × (length t.old ≤ most_plan) × (sizes.channels < 65536) × (sizes.start < 65536) × (sizes.cycle < 65536) × (sizes.lead < 65536) }
    ensures { t.new ≡ fronted t.old (head_of sizes.channels sizes.start sizes.cycle sizes.lead) }
{
    put_u16(&mut t[0..], sizes.channels);
    put_u16(&mut t[2..], sizes.start);
    put_u16(&mut t[4..], sizes.cycle);
    put_u16(&mut t[6..], sizes.lead);
}

// The tops of a plan, as they are.
fn put_tops(t: &mut [u8], plan: &Plan)
    requires { (4 * plan.now.sizes.channels ≤ length t.old) × (length t.old ≤ most_plan) }
    ensures { t.new ≡ fronted t.old (tops_of plan.now.sizes.channels (top_of plan.now.bytes.now)) }
{
    for channel in 0..plan.sizes.channels {
        let top = plan.top_of(channel);
        put_u32(&mut t[4 * channel..], top as u32);
    }
}

// The k-th row of an array. Two loops of two lines, here and in `put_tops`: one function of a closure for the number is no shorter.
fn put_row(t: &mut [u8], plan: &Plan, n: usize, array: Array, k: usize)
    requires { (can_be_laid plan.now.bytes.now n ≡ true) × (k < all_stored (laid_sizes plan.now.sizes n)) × (4 * plan.now.sizes.channels ≤ length t.old) × (length t.old ≤ most_plan) }
    ensures { t.new ≡ fronted t.old (pieces (λ channel. word (laid_number plan.now.bytes.now n array k channel)) plan.now.sizes.channels) }
{
    for channel in 0..plan.sizes.channels {
        let value = laid_number(plan, n, array, k, channel);
        put_u32(&mut t[4 * channel..], pattern_of(value));
    }
}

// An array of `stored` rows.
fn put_array(t: &mut [u8], plan: &Plan, n: usize, array: Array, stored: usize)
    requires { (can_be_laid plan.now.bytes.now n ≡ true) × (stored ≡ all_stored (laid_sizes plan.now.sizes n)) × (array_length plan.now.sizes.channels stored ≤ length t.old) × (length t.old ≤ most_plan) }
    ensures { t.new ≡ fronted t.old (array_of plan.now.sizes.channels stored (laid_number plan.now.bytes.now n array)) }
{
    let v = plan.sizes.channels;
    for k in 0..stored {
        put_row(&mut t[4 * (v * k)..], plan, n, array, k);
    }
}

// Where n passes can be laid out: the plan with n passes laid out.
pub fn put_layout(buffer: &mut [u8], plan: &Plan, n: usize)
    requires { (can_be_laid plan.now.bytes.now n ≡ true) × (length buffer.old ≡ most_plan) }
    ensures { buffer.new ≡ laid_out plan.now.bytes.now n ++ drop (length (laid_out plan.now.bytes.now n)) buffer.old }
{
    let sizes = plan.sizes;
    let laid = laid_sizes(sizes, n);
    let stored = laid.lead + (laid.start + laid.cycle);
    put_head(buffer, laid);
    put_tops(&mut buffer[SIZES_LENGTH..], plan);
    put_array(
        &mut buffer[head_length(sizes)..],
        plan,
        n,
        Array::Readings,
        stored,
    );
    put_array(
        &mut buffer[drifts_start(laid)..],
        plan,
        n,
        Array::Drifts,
        stored,
    );
}
