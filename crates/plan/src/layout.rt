// Where the plan's parts lie in its bytes.
ghost use Rattle.std.specs.Prelude.{◌≡◌, ◌+◌, ◌*◌, ◌≤◌, ◌<◌};
ghost use Rattle.plan.specs.Layout.{head_length, array_length, cell};
ghost use Rattle.plan.specs.inner.Sizes.{all_stored, most_stored, most_array};

use crate::sizes::Sizes;

// The bytes of the sizes; the tops begin after them.
pub const SIZES_LENGTH: usize = 8;

// The bytes of the sizes and of a top for each channel; the readings begin after them.
pub fn head_length(sizes: Sizes) -> usize
    requires { sizes.channels ≤ 8 }
    ensures { result ≡ head_length sizes.channels }
{
    SIZES_LENGTH + 4 * sizes.channels
}

// The bytes of one array: of the lead-in rows, then of the start rows and the cycle rows.
pub fn array_length(sizes: Sizes) -> usize
    requires { (sizes.channels ≤ 8) × (all_stored sizes ≤ most_stored) }
    ensures { (result ≡ array_length sizes.channels (all_stored sizes)) × (result ≤ most_array) }
{
    let stored = sizes.lead + (sizes.start + sizes.cycle);
    4 * (sizes.channels * stored)
}

// Where the drifts begin.
pub fn drifts_start(sizes: Sizes) -> usize
    requires { (sizes.channels ≤ 8) × (all_stored sizes ≤ most_stored) }
    ensures { (result ≡ head_length sizes.channels + array_length sizes.channels (all_stored sizes)) × (result ≤ head_length 8 + most_array) }
{
    head_length(sizes) + array_length(sizes)
}

// The index of a row of an array and a channel.
pub fn cell_of(sizes: Sizes, k: usize, channel: usize) -> usize
    requires { (sizes.channels ≤ 8) × (k < most_stored) × (channel < sizes.channels) }
    ensures { result ≡ cell sizes.channels k channel }
{
    k * sizes.channels + channel
}
