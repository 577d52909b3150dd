// The verdict on an atom, as a comparison of two terms, on one row of a plan, over all passes.
#![tactic(auto)]

ghost use Rattle.std.specs.Prelude.{◌≡◌};
ghost use Rattle.verdict.specs.Meaning.{is_changes};

use cltlb::Term;

pub mod atoms;
pub mod early;
pub mod laps;
pub mod lines;
pub mod rows;
pub mod stretches;
pub mod terms;
pub mod tops;
pub mod weeks;

// What a comparison is on the passes of a row.
#[derive(Clone, Copy, PartialEq, Eq)]
pub enum Verdict {
    AlwaysTrue,
    AlwaysFalse,
    Changes,
}

// Two passes differ.
pub fn is_changes(verdict: Verdict) -> bool
    ensures { result ≡ is_changes verdict }
{
    verdict == Verdict::Changes
}

// What a comparison asks of its two terms: that they are numbers, the left one below the right one, or the same, or less than so many
// minutes after it, whole weeks left aside; or that the left one is pinned, the right one being no matter.
#[derive(Clone, Copy)]
pub enum Relation {
    Below,
    Same,
    Within(u64),
    Pinned,
}

// A comparison of two terms.
#[derive(Clone, Copy)]
pub struct Comparison {
    pub relation: Relation,
    pub left: Term,
    pub right: Term,
}
