// The tops of the channels: none is negative, and a value at or above one that is not 0 is pinned.
ghost use Rattle.std.specs.Prelude.{◌≡◌, ◌*◌, ◌≤◌, ◌<◌, length, pos};
ghost use Rattle.cltlb.specs.Run.{under};
ghost use Rattle.fields.specs.inner.Biased.{bias};
ghost use Rattle.plan.specs.Layout.{tops, tops_fit, top_of};
ghost use Rattle.plan.specs.inner.Lifted.{value_end, lowered, seen_of, Small};

use crate::Plan;
use crate::layout::{SIZES_LENGTH, head_length};
use crate::lookup::{Seen, ZERO, entry_at};
use fields::BIAS;

// No one of the first `v` tops is negative.
pub fn tops_fit(tops: &[u8], v: usize) -> bool
    requires { 4 * v ≤ length tops.now }
    ensures { result ≡ tops_fit tops.now v }
{
    (0..v).all(|channel| BIAS <= entry_at(tops, channel))
}

impl<'a> Plan<'a> {
    fn tops(&self) -> &[u8]
        ensures { (result.now ≡ tops self.now.bytes.now) × (length result.now ≡ 4 * self.now.sizes.channels) }
    {
        &self.bytes[SIZES_LENGTH..head_length(self.sizes)]
    }

    // The top of a channel; 0 is no top.
    pub fn top_of(&self, channel: usize) -> u64
        requires { channel < self.now.sizes.channels }
        ensures { (pos result ≡ top_of self.now.bytes.now channel) × (result < bias) }
    {
        entry_at(self.tops(), channel) - BIAS
    }
}

// What is seen of a value under a top.
pub fn seen_under(top: u64, value: u64) -> Seen
    requires { (top < bias) × (value < value_end) }
    ensures { (seen_of result ≡ under (pos top) (lowered value)) × Small result }
{
    if top == 0 {
        return Seen::Number(value);
    }
    if value < top + ZERO {
        return Seen::Number(value);
    }
    Seen::Pinned
}
