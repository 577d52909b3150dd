// An array of a plan laid out as lanes: all rows of channel 0, the lead-in rows first, then all of channel 1, and on.
ghost use Rattle.std.specs.Prelude.{◌≡◌, ◌+◌, ◌*◌, ◌≤◌, ◌<◌, length, slice_range};
ghost use Rattle.plan.specs.Layout.{array_length, readings, drifts};
ghost use Rattle.plan.specs.inner.Sizes.{all_stored, most_array};
ghost use Rattle.lanes.specs.inner.Lanes.{LaidTo, Laid, Room};

use fields::{put_u32, u32_at};
use plan::Plan;
use plan::layout::{array_length, cell_of, drifts_start, head_length};
use plan::sizes::Sizes;

// The bytes of the largest array, of 8 channels on 260 rows.
pub const LANE_BYTES: usize = 8320;

// One channel, behind the lower ones.
fn lay_channel(array: &[u8], sizes: Sizes, channel: usize, lanes: &mut [u8])
    requires { (Room array.now sizes.channels (all_stored sizes) lanes.old) × (channel < sizes.channels) × (LaidTo array.now sizes.channels (all_stored sizes) lanes.old (channel * all_stored sizes)) }
    ensures { (length lanes.new ≡ length lanes.old) × (LaidTo array.now sizes.channels (all_stored sizes) lanes.new (channel * all_stored sizes + all_stored sizes)) }
{
    let stored = sizes.lead + (sizes.start + sizes.cycle);
    for k in 0..stored {
        let to = 4 * (channel * stored + k);
        let x = u32_at(array, 4 * cell_of(sizes, k, channel));
        put_u32(&mut lanes[to..], x);
    }
}

// An array of a plan of these sizes.
fn lay_out(array: &[u8], sizes: Sizes, lanes: &mut [u8])
    requires { Room array.now sizes.channels (all_stored sizes) lanes.old }
    ensures { Laid array.now sizes.channels (all_stored sizes) lanes.new }
{
    for channel in 0..sizes.channels {
        lay_channel(array, sizes, channel, lanes);
    }
}

// The array of a plan that begins at `start`.
fn lay_array(plan: &Plan, start: usize, lanes: &mut [u8])
    requires { (length lanes.old ≡ most_array) × (start + array_length plan.now.sizes.channels (all_stored plan.now.sizes) ≤ length plan.now.bytes.now) }
    ensures { Laid (slice_range plan.now.bytes.now start (start + array_length plan.now.sizes.channels (all_stored plan.now.sizes))) plan.now.sizes.channels (all_stored plan.now.sizes) lanes.new }
{
    let sizes = plan.sizes;
    let end = start + array_length(sizes);
    lay_out(&plan.bytes[start..end], sizes, lanes);
}

// The readings of a plan.
pub fn lay_readings(plan: &Plan, lanes: &mut [u8])
    requires { length lanes.old ≡ most_array }
    ensures { Laid (readings plan.now.bytes.now) plan.now.sizes.channels (all_stored plan.now.sizes) lanes.new }
{
    lay_array(plan, head_length(plan.sizes), lanes);
}

// The drifts of a plan.
pub fn lay_drifts(plan: &Plan, lanes: &mut [u8])
    requires { length lanes.old ≡ most_array }
    ensures { Laid (drifts plan.now.bytes.now) plan.now.sizes.channels (all_stored plan.now.sizes) lanes.new }
{
    lay_array(plan, drifts_start(plan.sizes), lanes);
}
