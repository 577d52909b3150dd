// The verdict on two numbers that each grow by a fixed step on every pass, around the week.
ghost use Rattle.std.specs.Prelude.{◌≡◌, ◌≤◌, ◌<◌};
ghost use Rattle.std.proofs.Math.IntN.{sub_ℕ};
ghost use Rattle.cltlb.specs.Week.{week, minute_of};
ghost use Rattle.verdict.specs.Divisors.{gcd};
ghost use Rattle.verdict.specs.Weeks.{judge_spaced, judge_within};
ghost use Rattle.verdict.specs.inner.Lifted.{line_of};

use crate::Verdict;
use crate::lines::LiftedLine;

pub const WEEK: u64 = cltlb::WEEK as u64;

// How many minutes a is after b, whole weeks left aside.
pub fn minutes_after(a: u64, b: u64) -> u64
    ensures { result ≡ minute_of (sub_ℕ a b) }
{
    if b <= a {
        return (a - b) % WEEK;
    }
    WEEK - 1 - (b - a - 1) % WEEK
}

// The greatest common divisor of the week and a step: the minutes by which a line with that step is after another on its passes are
// so far apart.
pub fn spacing(step: u64) -> u64
    ensures { (result ≡ gcd week step) × (1 ≤ result) × (result ≤ week) }
{
    let mut x = WEEK;
    let mut y = step;
    // No `for`: Euclid's two numbers change in each other's place.
    while 0 < y {
        let rest = x % y;
        x = y;
        y = rest;
    }
    x
}

// The verdict on numbers of minutes that are so far apart, the least being given.
fn decide_spaced(n: u64, apart: u64, least: u64) -> Verdict
    requires { (apart ≤ week) × (least < apart) }
    ensures { result ≡ judge_spaced n apart least }
{
    if n <= least {
        return Verdict::AlwaysFalse;
    }
    if least + (WEEK - apart) < n {
        return Verdict::AlwaysTrue;
    }
    Verdict::Changes
}

pub fn decide_within(n: u64, x: LiftedLine, y: LiftedLine) -> Verdict
    ensures { result ≡ judge_within n (line_of x) (line_of y) }
{
    let apart = spacing(minutes_after(x.step, y.step));
    decide_spaced(n, apart, minutes_after(x.at, y.at) % apart)
}
