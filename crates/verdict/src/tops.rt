// The verdict on two lines with tops: a line stands for a number on the passes on which it is below its top, 0 being no top.
ghost use Rattle.std.specs.Prelude.{◌≡◌, cond, ◌≤◌, ◌<◌, pos};
ghost use Rattle.fields.specs.inner.Biased.{bias};
ghost use Rattle.cltlb.specs.Week.{week};
ghost use Rattle.verdict.specs.Lines.{level};
ghost use Rattle.verdict.specs.Tops.{passes_free, passes_pinned, some_from, within_on, some_within, some_on, judge_pinned, judge_free, judge_under};
ghost use Rattle.verdict.specs.inner.Lifted.{line_of, Low};

use crate::laps::{Walk, enters};
use crate::lines::{LiftedLine, decide};
use crate::stretches::{Stretch, at_most, below, has_pass, is_all, meet, same};
use crate::weeks::{WEEK, minutes_after};
use crate::{Relation, Verdict};
use fields::BIAS;
use plan::lookup::ZERO;

// A line with the top ahead of it.
#[derive(Clone, Copy)]
struct Topped {
    top: u64,
    line: LiftedLine,
    ghost small: { top < bias },
    ghost low: { Low line },
}

// The line of a top.
fn level_at(top: u64) -> LiftedLine
    requires { top < bias }
    ensures { (line_of result ≡ level (pos top)) × (Low result) }
{
    LiftedLine {
        at: top + ZERO,
        step: BIAS,
    }
}

// The passes on which a line is below its top.
fn passes_free(x: Topped) -> Stretch
    ensures { result ≡ passes_free (pos x.top) (line_of x.line) }
{
    if x.top == 0 {
        return Stretch::From(0);
    }
    below(x.line, level_at(x.top))
}

// The passes on which a line is at or above its top.
fn passes_pinned(x: Topped) -> Stretch
    ensures { result ≡ passes_pinned (pos x.top) (line_of x.line) }
{
    if x.top == 0 {
        return Stretch::Between(0, 0);
    }
    at_most(level_at(x.top), x.line)
}

// Whether x is less than n minutes after y on one of the passes from `first` on.
fn some_within(n: u64, x: LiftedLine, y: LiftedLine, first: usize, passes: usize) -> bool
    requires { passes ≤ week }
    ensures { result ≡ some_from (within_on n (line_of x) (line_of y)) first passes }
{
    if n == 0 {
        return false;
    }
    let step = minutes_after(x.step, y.step);
    let at = (minutes_after(x.at, y.at) + first as u64 % WEEK * step) % WEEK;
    let walk = Walk {
        lap: WEEK,
        at,
        step,
        passes: passes as u64,
    };
    enters(walk, n)
}

// Whether x is less than n minutes after y on some pass of a stretch. After 10080 passes the minutes come again.
#[tactic(auto, unfolding(crate::specs::Tops::some_within))]
fn within_on(n: u64, x: LiftedLine, y: LiftedLine, p: Stretch) -> bool
    ensures { result ≡ some_within n (line_of x) (line_of y) p }
{
    match p {
        Stretch::From(a) => some_within(n, x, y, a, WEEK as usize),
        Stretch::Between(a, b) => some_within(n, x, y, a, b.saturating_sub(a).min(WEEK as usize)),
    }
}

// Whether a relation holds on some pass of a stretch.
#[tactic(auto, unfolding(crate::specs::Tops::some_on))]
fn some_on(relation: Relation, x: LiftedLine, y: LiftedLine, p: Stretch) -> bool
    requires { (Low x) × (Low y) }
    ensures { result ≡ some_on relation (line_of x) (line_of y) p }
{
    match relation {
        Relation::Below => has_pass(meet(below(x, y), p)),
        Relation::Same => has_pass(meet(same(x, y), p)),
        Relation::Within(n) => within_on(n, x, y, p),
        Relation::Pinned => false,
    }
}

// The verdict on what does not hold on all passes, by whether it holds on some.
fn decide_some(some: bool) -> Verdict
    ensures { result ≡ cond some Verdict.Changes Verdict.AlwaysFalse }
{
    if some {
        return Verdict::Changes;
    }
    Verdict::AlwaysFalse
}

// The verdict on a line that is pinned.
fn decide_pinned(x: Topped) -> Verdict
    ensures { result ≡ judge_pinned (pos x.top) (line_of x.line) }
{
    let p = passes_pinned(x);
    if is_all(p) {
        return Verdict::AlwaysTrue;
    }
    decide_some(has_pass(p))
}

// The verdict on a relation of two lines, neither of them pinned.
fn decide_free(relation: Relation, x: Topped, y: Topped) -> Verdict
    ensures { result ≡ judge_free relation (pos x.top) (line_of x.line) (pos y.top) (line_of y.line) }
{
    let p = meet(passes_free(x), passes_free(y));
    if is_all(p) {
        return decide(relation, x.line, y.line);
    }
    decide_some(some_on(relation, x.line, y.line, p))
}

// The verdict on two lines, each with its top ahead of it.
pub fn decide_under(relation: Relation, s: u64, x: LiftedLine, t: u64, y: LiftedLine) -> Verdict
    requires { (s < bias) × (Low x) × (t < bias) × (Low y) }
    ensures { result ≡ judge_under relation (pos s) (line_of x) (pos t) (line_of y) }
{
    let x = Topped { top: s, line: x };
    let y = Topped { top: t, line: y };
    match relation {
        Relation::Pinned => decide_pinned(x),
        _ => decide_free(relation, x, y),
    }
}
