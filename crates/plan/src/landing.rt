// Where a shift lands: on all passes of a cycle row on which the shifted position is not before the cycle, it lies on one row, a
// fixed number of passes off. `code` is the shift + 4.
ghost use Rattle.std.specs.Prelude.{◌≡◌, ◌+◌, ◌*◌, ◌≤◌};
ghost use Rattle.plan.specs.inner.Sizes.{all_rows, farthest};
ghost use Rattle.plan.specs.inner.Landing.{landing_row, landing_off};

use crate::sizes::Sizes;

// The row, and the passes off + 4.
#[derive(Clone, Copy)]
pub struct Landing {
    pub row: usize,
    pub off: usize,
}

pub fn landing_of(sizes: Sizes, row: usize, code: usize) -> Landing
    requires { (1 ≤ sizes.cycle) × (all_rows sizes ≤ 256) × (sizes.start ≤ row) × (row + code ≤ farthest sizes) }
    ensures { (result.row ≡ landing_row sizes.start sizes.cycle row code) × (result.off ≡ landing_off sizes.start sizes.cycle row code) }
{
    let at = row + code;
    if sizes.start + 4 <= at && at < sizes.start + sizes.cycle + 4 {
        return Landing {
            row: at - 4,
            off: 4,
        };
    }
    let behind = at + 4 * sizes.cycle - (sizes.start + 4);
    Landing {
        row: sizes.start + behind % sizes.cycle,
        off: behind / sizes.cycle,
    }
}
