// Stretches of passes: those on which one line is below another, and those that two stretches have in common.
ghost use Rattle.std.specs.Prelude.{◌≡◌};
ghost use Rattle.verdict.specs.Stretches.{is_all, has_pass, common, passes_below, passes_at_most, passes_same};
ghost use Rattle.verdict.specs.inner.Lifted.{line_of, Low};

use crate::lines::LiftedLine;

// All passes from one on, or those from one on and before another.
#[derive(Clone, Copy)]
pub enum Stretch {
    From(usize),
    Between(usize, usize),
}

// Whether every pass lies in a stretch.
#[tactic(auto, unfolding(crate::specs::Stretches::is_all))]
pub fn is_all(p: Stretch) -> bool
    ensures { result ≡ is_all p }
{
    matches!(p, Stretch::From(0))
}

// Whether some pass lies in a stretch.
#[tactic(auto, unfolding(crate::specs::Stretches::has_pass))]
pub fn has_pass(p: Stretch) -> bool
    ensures { result ≡ has_pass p }
{
    match p {
        Stretch::From(_) => true,
        Stretch::Between(a, b) => a < b,
    }
}

// The passes that lie in both.
#[tactic(auto, unfolding(crate::specs::Stretches::common))]
pub fn meet(p: Stretch, q: Stretch) -> Stretch
    ensures { result ≡ common p q }
{
    match (p, q) {
        (Stretch::From(a), Stretch::From(b)) => Stretch::From(a.max(b)),
        (Stretch::From(a), Stretch::Between(b, e)) => Stretch::Between(a.max(b), e),
        (Stretch::Between(a, d), Stretch::From(b)) => Stretch::Between(a.max(b), d),
        (Stretch::Between(a, d), Stretch::Between(b, e)) => Stretch::Between(a.max(b), d.min(e)),
    }
}

// The passes on which x is below y.
pub fn below(x: LiftedLine, y: LiftedLine) -> Stretch
    requires { Low x }
    ensures { result ≡ passes_below (line_of x) (line_of y) }
{
    if x.at < y.at {
        if y.step < x.step {
            return Stretch::Between(0, ((y.at - x.at - 1) / (x.step - y.step) + 1) as usize);
        }
        return Stretch::From(0);
    }
    if x.step < y.step {
        return Stretch::From(((x.at - y.at) / (y.step - x.step) + 1) as usize);
    }
    Stretch::Between(0, 0)
}

// The passes on which x is not above y.
pub fn at_most(x: LiftedLine, y: LiftedLine) -> Stretch
    requires { (Low x) × (Low y) }
    ensures { result ≡ passes_at_most (line_of x) (line_of y) }
{
    below(
        x,
        LiftedLine {
            at: y.at + 1,
            step: y.step,
        },
    )
}

// The passes on which x and y are the same.
#[tactic(auto, unfolding(crate::specs::Stretches::passes_same))]
pub fn same(x: LiftedLine, y: LiftedLine) -> Stretch
    requires { (Low x) × (Low y) }
    ensures { result ≡ passes_same (line_of x) (line_of y) }
{
    meet(at_most(x, y), at_most(y, x))
}
