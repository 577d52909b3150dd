// Drifts of many rows, looked at at once. The sweep goes through all its numbers and leaves none early, so that the compiler can
// take many at once; what it finds is that none of them drifts.
ghost use Rattle.std.specs.Prelude.{◌≡◌, true, ◌+◌, ◌*◌, ◌≤◌, length};
ghost use Rattle.plan.specs.inner.Sizes.{all_rows, all_stored, most_array};
ghost use Rattle.plan.specs.inner.Drifts.{all_zero, StoredStill, Still};

use crate::Plan;
use fields::u32_at;

// Every one of `count` numbers of an array, from an index on, is 0.
fn all_zero(array: &[u8], from: usize, count: usize) -> bool
    requires { (4 * (from + count) ≤ length array.now) × (length array.now ≤ most_array) }
    ensures { result ≡ all_zero array.now from count }
{
    let mut all = true;
    for k in 0..count {
        all &= u32_at(array, 4 * (from + k)) == 0;
    }
    all
}

impl<'a> Plan<'a> {
    // Where this is true, no channel drifts on the stored rows from one up to another.
    pub fn stored_still(&self, from: usize, to: usize) -> bool
        requires { (from ≤ to) × (to ≤ all_stored self.now.sizes) }
        ensures { result ≡ true → StoredStill self.now.bytes.now from to }
    {
        let v = self.sizes.channels;
        all_zero(self.drifts(), from * v, (to - from) * v)
    }

    // Where this is true, none does on the rows from one up to another.
    pub fn still(&self, from: usize, to: usize) -> bool
        requires { (from ≤ to) × (to ≤ all_rows self.now.sizes) }
        ensures { result ≡ true → Still self.now.bytes.now from to }
    {
        let lead = self.sizes.lead;
        self.stored_still(lead + from, lead + to)
    }
}
