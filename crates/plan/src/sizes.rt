// The plan's sizes, read and held to their ranges and to the length, and its tops, none of which is negative.
ghost use Rattle.std.specs.Prelude.{◌≡◌, ◌<◌};
ghost use Rattle.plan.specs.inner.Sizes.{in_range, sizes_read};

use crate::layout::{SIZES_LENGTH, array_length, head_length};
use crate::tops::tops_fit;
use fields::u16_at;

// The channels, V, the start rows, P, the cycle rows, C, and the lead-in rows, L.
#[derive(Clone, Copy)]
pub struct Sizes {
    pub channels: usize,
    pub start: usize,
    pub cycle: usize,
    pub lead: usize,
}

// V is 1 to 8, C at least 1, W at most 256 and L at most 4.
fn in_range(sizes: Sizes) -> bool
    requires { (sizes.start < 65536) × (sizes.cycle < 65536) }
    ensures { result ≡ in_range sizes }
{
    (1..=8).contains(&sizes.channels)
        && 1 <= sizes.cycle
        && sizes.start + sizes.cycle <= 256
        && sizes.lead <= 4
}

// The sizes of a plan, where they fit their ranges and the length and no top is negative.
pub fn read_sizes(plan: &[u8]) -> Option<Sizes>
    ensures { result ≡ sizes_read plan.now }
{
    if plan.len() < SIZES_LENGTH {
        return None;
    }
    let sizes = Sizes {
        channels: u16_at(plan, 0),
        start: u16_at(plan, 2),
        cycle: u16_at(plan, 4),
        lead: u16_at(plan, 6),
    };
    if !in_range(sizes) {
        return None;
    }
    let head = head_length(sizes);
    if plan.len() != head + 2 * array_length(sizes)
        || !tops_fit(&plan[SIZES_LENGTH..head], sizes.channels)
    {
        return None;
    }
    Some(sizes)
}
