// Readings and drifts, and what is seen of a channel at a position. All numbers are lifted, so that none is below 0: a field
// of 4 bytes is kept as the number + BIAS, a value as the value + (LAST_PASS + 1) × BIAS.
ghost use Rattle.std.specs.Prelude.{◌≡◌, ◌+◌, ◌*◌, ◌≤◌, ◌<◌, length, pos, ◌+ℤ◌, ◌*ℤ◌};
ghost use Rattle.std.proofs.Math.IntN.{sub_ℕ};
ghost use Rattle.fields.specs.inner.Biased.{patterns, unbiased};
ghost use Rattle.plan.specs.Layout.{array_length, readings, drifts, entry, stored_reading, stored_drift, drift_of};
ghost use Rattle.plan.specs.inner.Sizes.{all_rows, all_stored, farthest};
ghost use Rattle.plan.specs.Run.{reading_on, run_of};
ghost use Rattle.plan.specs.inner.Lifted.{passes, lowered, value_end, seen_of, Small};

use crate::Plan;
use crate::layout::{cell_of, drifts_start, head_length};
use crate::positions::{pass_of, row_of};
use crate::tops::seen_under;
use fields::{BIAS, biased, u32_at};

// The last pass that the lookups reach.
pub const LAST_PASS: u64 = 1023;

// The value 0, lifted.
pub const ZERO: u64 = (LAST_PASS + 1) * BIAS;

// A value, lifted; that it is pinned; or nothing, because the position is before the run.
#[derive(Clone, Copy)]
pub enum Seen {
    Number(u64),
    Pinned,
    BeforeRun,
}

// The number at an index of an array.
pub fn entry_at(array: &[u8], index: usize) -> u64
    requires { 4 * index + 4 ≤ length array.now }
    ensures { (unbiased result ≡ entry array.now index) × (result < patterns) }
{
    biased(u32_at(array, 4 * index))
}

// The value on a pass at an index of the two arrays.
fn number_on(readings: &[u8], drifts: &[u8], index: usize, pass: usize) -> u64
    requires { (4 * index + 4 ≤ length readings.now) × (4 * index + 4 ≤ length drifts.now) × (pass < passes) }
    ensures { (lowered result ≡ entry readings.now index +ℤ pos pass *ℤ entry drifts.now index) × (result < value_end) }
{
    let k = pass as u64;
    entry_at(readings, index) + k * entry_at(drifts, index) + (LAST_PASS - k) * BIAS
}

impl<'a> Plan<'a> {
    // The two arrays.
    pub fn readings(&self) -> &[u8]
        ensures { (result.now ≡ readings self.now.bytes.now) × (length result.now ≡ array_length self.now.sizes.channels (all_stored self.now.sizes)) }
    {
        &self.bytes[head_length(self.sizes)..drifts_start(self.sizes)]
    }

    pub fn drifts(&self) -> &[u8]
        ensures { (result.now ≡ drifts self.now.bytes.now) × (length result.now ≡ array_length self.now.sizes.channels (all_stored self.now.sizes)) }
    {
        &self.bytes[drifts_start(self.sizes)..]
    }

    // The value of a channel on a pass, on the k-th row that is stored.
    pub fn stored_number(&self, channel: usize, k: usize, pass: usize) -> u64
        requires { (channel < self.now.sizes.channels) × (k < all_stored self.now.sizes) × (pass < passes) }
        ensures { (lowered result ≡ stored_reading self.now.bytes.now k channel +ℤ pos pass *ℤ stored_drift self.now.bytes.now k channel) × (result < value_end) }
    {
        number_on(
            self.readings(),
            self.drifts(),
            cell_of(self.sizes, k, channel),
            pass,
        )
    }

    // The value of a channel on a row and a pass.
    pub fn number_at(&self, channel: usize, row: usize, pass: usize) -> u64
        requires { (channel < self.now.sizes.channels) × (row < all_rows self.now.sizes) × (pass < passes) }
        ensures { (lowered result ≡ reading_on self.now.bytes.now channel row pass) × (result < value_end) }
    {
        self.stored_number(channel, self.sizes.lead + row, pass)
    }

    // The drift of a channel on the k-th row that is stored.
    pub fn stored_drift(&self, channel: usize, k: usize) -> u64
        requires { (channel < self.now.sizes.channels) × (k < all_stored self.now.sizes) }
        ensures { (unbiased result ≡ stored_drift self.now.bytes.now k channel) × (result < patterns) }
    {
        entry_at(self.drifts(), cell_of(self.sizes, k, channel))
    }

    // The drift of a channel on a row.
    pub fn drift_at(&self, channel: usize, row: usize) -> u64
        requires { (channel < self.now.sizes.channels) × (row < all_rows self.now.sizes) }
        ensures { (unbiased result ≡ drift_of self.now.bytes.now row channel) × (result < patterns) }
    {
        self.stored_drift(channel, self.sizes.lead + row)
    }

    // What is seen of a channel at the position `ahead` - 4: a term at position t whose shift has the code k, which is the shift
    // + 4, is seen at t + k. In the lead-in, whose first row lies farthest back, and on pass 0 it is what is stored there, under the top.
    pub fn seen_at(&self, channel: usize, ahead: usize) -> Seen
        requires { (channel < self.now.sizes.channels) × (ahead ≤ farthest self.now.sizes) }
        ensures { (seen_of result ≡ run_of self.now.bytes.now channel (sub_ℕ ahead 4)) × Small result }
    {
        let sizes = self.sizes;
        let at = sizes.lead + ahead;
        if at < 4 {
            return Seen::BeforeRun;
        }
        let top = self.top_of(channel);
        if ahead < sizes.start + sizes.cycle + 4 {
            return seen_under(top, self.stored_number(channel, at - 4, 0));
        }
        let t = ahead - 4;
        seen_under(
            top,
            self.number_at(channel, row_of(sizes, t), pass_of(sizes, t)),
        )
    }
}
