// Whether a number that grows by a fixed step enters a window of each lap on one of its passes, found by its laps: on each lap only the
// first place counts, and those places are a walk around the step. The lap at least halves on every round.
ghost use Rattle.std.specs.Prelude.{◌≡◌, true, ◌↔◌, ◌*◌, ◌≤◌, ◌<◌};
ghost use Rattle.verdict.specs.inner.Walks.{Enters, Sized};

// A number that is `at` on pass 0 and grows by `step` on each of the passes before `passes`, looked at from the beginning of a lap.
#[derive(Clone, Copy)]
pub struct Walk {
    pub lap: u64,
    pub at: u64,
    pub step: u64,
    pub passes: u64,
}

// A walk with a step of at most half a lap: where the step is larger, the same walk seen in a mirror.
fn gentle(w: Walk, len: u64) -> Walk
    requires { (Sized w) × (1 ≤ len) × (len ≤ w.at) }
    ensures { (Sized result) × (len ≤ result.at) × (2 * result.step ≤ result.lap) × (result.lap ≡ w.lap) × (result.passes ≡ w.passes) × (Enters result len ↔ Enters w len) }
{
    if w.lap < 2 * w.step {
        return Walk {
            at: w.lap + len - 1 - w.at,
            step: w.lap - w.step,
            ..w
        };
    }
    w
}

// The walk of the laps: on each lap, how far the first place behind its beginning lies behind it.
fn lapped(w: Walk, len: u64) -> Walk
    requires { (Sized w) × (len ≤ w.at) × (len < w.step) × (1 ≤ w.passes) }
    ensures { (Sized result) × (result.lap ≡ w.step) × (Enters result len ↔ Enters w len) }
{
    let back = w.step - w.lap % w.step;
    Walk {
        lap: w.step,
        at: (w.at + back) % w.step,
        step: back,
        passes: (w.at + (w.passes - 1) * w.step) / w.lap,
    }
}

// Whether the walk is in the first `len` places of a lap on one of its passes.
pub fn enters(walk: Walk, len: u64) -> bool
    requires { (Sized walk) × (1 ≤ len) }
    ensures { (result ≡ true) ↔ Enters walk len }
{
    let mut w = walk;
    // No `for`: the walk of the laps takes the walk's place.
    while 0 < w.passes {
        if w.at < len {
            return true;
        }
        let g = gentle(w, len);
        if g.step <= len {
            return g.lap <= g.at + (g.passes - 1) * g.step;
        }
        w = lapped(g, len);
    }
    false
}
