// Sweeps around the week, over two columns and the marks of a part. On each row it is asked how far the minutes by which one number is
// after the other are past a multiple of the spacing of the lines. That is found as a share of the spacing, in parts of 2 ^ 32, by
// two products with its inverse, which is found once for a stretch of rows with the same drifts.
ghost use Rattle.std.specs.Prelude.{◌≡◌, true, ◌+◌, ◌*◌, ◌-◌, ◌%◌, ◌≤◌, ◌<◌};
ghost use Rattle.std.proofs.Math.IntN.{sub_ℕ};
ghost use Rattle.cltlb.specs.Week.{minute_of};
ghost use Rattle.fields.specs.inner.Biased.{patterns, unbiased};
ghost use Rattle.table.specs.inner.Tables.{all_below};
ghost use Rattle.verdict.specs.declared.Relation.TheVariants.{Within};
ghost use Rattle.verdict.specs.Weeks.{judge_within};
ghost use Rattle.lanes.specs.inner.Agreement.{line_from, verdict_agrees};
ghost use Rattle.lanes.specs.inner.Columns.{drift_in};
ghost use Rattle.lanes.specs.inner.Spacing.{Spaces, share_of, Shares, SameDrifts, same_drifts, spaced_says};
ghost use Rattle.lanes.specs.inner.Stretches.{all_values_agree, all_lines_agree};

use crate::stretch::{Lines, Stretch};
use fields::BIAS;
use table::all::all_hold;
use verdict::weeks::{WEEK, minutes_after, spacing};

// All shares of a spacing, and the part of them by which a share may fall short.
const WHOLE: u64 = 4294967296;

const SHORT: u64 = 65537;

// How many rows have their drifts looked at together.
const BLOCK: usize = 8;

// A number of minutes, the steps of two lines, and how far apart the minutes are by which the one is after the other on its passes. Of
// that number: the inverse, which is all shares divided by it, and the rest of that division, again in shares; and the shares below
// which the minutes are fewer on every pass, and on one.
#[derive(Clone, Copy)]
struct Spacing {
    pub minutes: u64,
    pub left: u64,
    pub right: u64,
    pub apart: u32,
    pub inverse: u32,
    pub rest: u32,
    pub always: u32,
    pub once: u32,
}

fn spacing_of(minutes: u64, left: u64, right: u64) -> Spacing
    ensures { Spaces minutes left right result }
{
    let apart = spacing(minutes_after(left, right));
    let inverse = (WHOLE - 1) / apart;
    let over = WHOLE - inverse * apart;
    let once = minutes.min(apart);
    let always = minutes.min(WEEK).saturating_sub(WEEK - apart);
    Spacing {
        minutes,
        left,
        right,
        apart: apart as u32,
        inverse: inverse as u32,
        rest: ((over * 65536 - 1) / apart * 65536) as u32,
        always: (always * inverse) as u32,
        once: (once * inverse) as u32,
    }
}

// The share by which a number is past a multiple of the spacing, or little less. All factors have 32 bits, so that the compiler can
// take several rows at once.
fn share(a: u64, known: Spacing) -> u64
    requires { a < patterns }
    ensures { result ≡ share_of known a }
{
    (a * (known.inverse as u64) + a * (known.rest as u64) / WHOLE) % WHOLE
}

// The share by which the minutes by which a is after b are past a multiple of the spacing, or little more.
fn share_after(a: u64, b: u64, known: Spacing) -> u32
    requires { (a < patterns) × (b < patterns) × (Spaces known.minutes known.left known.right known) }
    ensures { Shares known.apart (minute_of (sub_ℕ a b) % known.apart) result }
{
    ((share(a, known) + (WHOLE + SHORT - share(b, known))) % WHOLE) as u32
}

// The mark says on every pass whether the first of two such lines, which begin at a and b, is less than so many minutes after the other.
fn spaced_agrees(mark: bool, known: Spacing, a: u64, b: u64) -> bool
    requires { (a < patterns) × (b < patterns) × (Spaces known.minutes known.left known.right known) }
    ensures { result ≡ verdict_agrees (judge_within known.minutes (line_from a known.left) (line_from b known.right)) mark }
{
    let share = share_after(a, b, known);
    (mark & (share < known.always)) | !(mark | (share < known.once))
}

// The marks of the rows from one up to another, on which the lines have one spacing, say on every pass whether the left line is less
// than so many minutes after the right one.
fn within_stretch(stretch: &Stretch, known: Spacing, from: usize, to: usize) -> bool
    requires { (from ≤ to) × (to ≤ stretch.now.count) × (Spaces known.minutes known.left known.right known) }
    ensures { result ≡ all_below (λ k. spaced_says stretch.now.values.now known.minutes known.left known.right stretch.now.x stretch.now.y stretch.now.table.now stretch.now.m (from + k)) (to - from) }
{
    all_hold(to - from, |k| {
        let row = from + k;
        spaced_agrees(
            stretch.mark(row),
            known,
            stretch.left_number(row),
            stretch.right_number(row),
        )
    })
}

// The marks say whether the left number is less than so many minutes after the right one: as of lines that do not drift.
pub fn within_values(stretch: &Stretch, minutes: u64) -> bool
    ensures { result ≡ all_values_agree (Within minutes) stretch.now }
{
    let known = spacing_of(minutes, BIAS, BIAS);
    within_stretch(stretch, known, 0, stretch.count)
}

// All rows from one up to another have these drifts; none is left early, so that the compiler can take many at once.
#[tactic(auto, using(crate::proofs::Windows::drifts_said))]
fn have_drifts(lines: &Lines, left: u64, right: u64, from: usize, to: usize) -> bool
    requires { (from ≤ to) × (to ≤ lines.now.stretch.count) }
    ensures { result ≡ all_below (λ k. same_drifts lines.now.drifts.now lines.now.stretch.x lines.now.stretch.y left right (from + k)) (to - from) }
{
    all_hold(
        to - from,
        |k| (lines.left_drift(from + k) == left) & (lines.right_drift(from + k) == right),
    )
}

// The end of the blocks of rows after `from` that have these drifts, which that row has.
fn blocks_end(lines: &Lines, left: u64, right: u64, from: usize) -> usize
    requires { (from < lines.now.stretch.count) × (unbiased left ≡ drift_in lines.now.drifts.now lines.now.stretch.x from) × (unbiased right ≡ drift_in lines.now.drifts.now lines.now.stretch.y from) }
    ensures { (result ≤ lines.now.stretch.count) × (SameDrifts lines.now.drifts.now lines.now.stretch.x lines.now.stretch.y left right from result) }
{
    let count = lines.stretch.count;
    let mut end = from + 1;
    // No `for`: each step is a block long, and the last rows that fill none are left.
    while BLOCK <= count - end {
        let next = end + BLOCK;
        if !have_drifts(lines, left, right, end, next) {
            return end;
        }
        end = next;
    }
    end
}

// The end of the stretch of rows from `from` on that have these drifts, which that row has: whole blocks, and row by row from there on.
fn stretch_end(lines: &Lines, left: u64, right: u64, from: usize) -> usize
    requires { (from < lines.now.stretch.count) × (unbiased left ≡ drift_in lines.now.drifts.now lines.now.stretch.x from) × (unbiased right ≡ drift_in lines.now.drifts.now lines.now.stretch.y from) }
    ensures { (result ≤ lines.now.stretch.count) × (SameDrifts lines.now.drifts.now lines.now.stretch.x lines.now.stretch.y left right from result) }
{
    let count = lines.stretch.count;
    for row in blocks_end(lines, left, right, from)..count {
        if lines.left_drift(row) != left {
            return row;
        }
        if lines.right_drift(row) != right {
            return row;
        }
    }
    count
}

// The marks say on every pass whether the left line is less than so many minutes after the right one.
pub fn within_lines(lines: &Lines, minutes: u64) -> bool
    ensures { result ≡ all_lines_agree (Within minutes) lines.now }
{
    let stretch = &lines.stretch;
    let mut all = true;
    let mut k = 0;
    // No `for`: each step is as long as the stretch of rows with the same drifts.
    while k < stretch.count {
        let left = lines.left_drift(k);
        let right = lines.right_drift(k);
        let end = stretch_end(lines, left, right, k);
        let known = spacing_of(minutes, left, right);
        all &= within_stretch(stretch, known, k, end);
        k = end;
    }
    all
}
