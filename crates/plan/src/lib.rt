// The plan: its sizes, its tops, its readings and drifts, what is seen of a channel at a position, and refusals 4 to 6.
#![tactic(auto)]

ghost use Rattle.std.specs.Prelude.{ℕ, ◌<◌, slice_index};
ghost use Rattle.plan.specs.inner.Sizes.{Fitting};

use sizes::Sizes;

pub mod check;
pub mod landing;
pub mod layout;
pub mod lookup;
pub mod positions;
pub mod sizes;
pub mod sweeps;
pub mod tops;

// The bytes of a plan that cleared refusal 4, and the sizes that they begin with.
#[derive(Clone, Copy)]
pub struct Plan<'a> {
    pub bytes: &'a [u8],
    pub sizes: Sizes,
    pub ghost in_bytes: { (i : ℕ) → slice_index bytes.now i < 256 },
    pub ghost fits: { Fitting bytes.now sizes },
}
