// A term at a position and on the passes of a cycle row: what is seen of it, its top, its line from a pass on, and how far back it is
// read.
ghost use Rattle.std.specs.Prelude.{◌≡◌, ◌+◌, ◌*◌, ◌≤◌, ◌<◌, pos, true};
ghost use Rattle.std.proofs.Math.IntN.{sub_ℕ};
ghost use Rattle.cltlb.specs.Truth.{value_at};
ghost use Rattle.cltlb.specs.Fits.{shift_fits, term_fits};
ghost use Rattle.fields.specs.inner.Biased.{patterns, bias, unbiased};
ghost use Rattle.plan.specs.inner.Sizes.{all_rows, farthest};
ghost use Rattle.plan.specs.Run.{run_of};
ghost use Rattle.plan.specs.inner.Lifted.{passes, lowered, value_end, seen_of};
ghost use Rattle.verdict.specs.Rows.{term_top};
ghost use Rattle.verdict.specs.inner.Reach.{back, reach, latest};
ghost use Rattle.verdict.specs.inner.Lifted.{line_of, Low};
ghost use Rattle.verdict.specs.inner.Landed.{shift_in, Lands, Reached, LandsAt, line_on, landed_line};

use crate::lines::LiftedLine;
use cltlb::Term;
use fields::{BIAS, biased, pattern};
use plan::Plan;
use plan::landing::Landing;
use plan::lookup::{LAST_PASS, Seen};
use plan::tops::seen_under;

// The least shift, -4, kept without a sign.
const LEAST_SHIFT: u64 = BIAS - 4;

// A number of 32 bits, kept without a sign.
fn lift(z: i32) -> u64
    ensures { (unbiased result ≡ z) × (result < patterns) }
{
    biased(pattern(z))
}

// A constant, lifted as the values of readings are.
fn constant(z: i32) -> u64
    ensures { (lowered result ≡ z) × (result < value_end) }
{
    lift(z) + LAST_PASS * BIAS
}

// The code of a shift, which is the shift + 4.
fn code_of(shift: i32) -> usize
    requires { shift_fits shift ≡ true }
    ensures { (sub_ℕ result 4 ≡ shift) × (result ≤ 8) }
{
    (lift(shift) - LEAST_SHIFT) as usize
}

// How far back a shift reaches.
fn back_of(shift: i32) -> usize
    ensures { result ≡ back shift }
{
    BIAS.saturating_sub(lift(shift)) as usize
}

// How far back a term reaches.
pub fn reach_of(term: Term) -> usize
    ensures { result ≡ reach term }
{
    match term {
        Term::Constant(_) => 0,
        Term::Reading { channel: _, shift } => back_of(shift),
    }
}

// The top of a term; a constant has none.
pub fn top_in(plan: &Plan, term: Term) -> u64
    requires { term_fits plan.now.sizes.channels term ≡ true }
    ensures { (pos result ≡ term_top plan.now.bytes.now term) × (result < bias) }
{
    match term {
        Term::Constant(_) => 0,
        Term::Reading { channel, shift: _ } => plan.top_of(channel),
    }
}

// What is seen of a term at position t.
pub fn seen_term(plan: &Plan, term: Term, t: usize) -> Seen
    requires { (term_fits plan.now.sizes.channels term ≡ true) × (t ≤ latest plan.now.sizes) }
    ensures { seen_of result ≡ value_at (run_of plan.now.bytes.now) term t }
{
    match term {
        Term::Constant(z) => Seen::Number(constant(z)),
        Term::Reading { channel, shift } => plan.seen_at(channel, t + code_of(shift)),
    }
}

// The code of the shift by which a term is read; a constant, which is read nowhere, has that of no shift.
pub fn code_in(term: Term) -> usize
    requires { shift_fits (shift_in term) ≡ true }
    ensures { (sub_ℕ result 4 ≡ shift_in term) × (result ≤ 8) }
{
    match term {
        Term::Constant(_) => 4,
        Term::Reading { channel: _, shift } => code_of(shift),
    }
}

// What is seen of a channel at the position `ahead` - 4, which is on pass k of a row whose shift lands so: before the cycle it is
// looked up as it comes.
fn seen_on_landing(plan: &Plan, channel: usize, landing: Landing, ahead: usize, k: usize) -> Seen
    requires { (channel < plan.now.sizes.channels) × (ahead ≤ farthest plan.now.sizes) × (LandsAt plan.now.bytes.now plan.now.sizes landing ahead k) }
    ensures { seen_of result ≡ run_of plan.now.bytes.now channel (sub_ℕ ahead 4) }
{
    if ahead < plan.sizes.start + 4 {
        return plan.seen_at(channel, ahead);
    }
    seen_under(
        plan.top_of(channel),
        plan.number_at(channel, landing.row, k + landing.off - 4),
    )
}

// What is seen of a term on pass k of a row from which its shift lands so.
pub fn seen_on(plan: &Plan, term: Term, landing: Landing, row: usize, k: usize) -> Seen
    requires { (term_fits plan.now.sizes.channels term ≡ true) × (plan.now.sizes.start ≤ row) × (Lands plan.now.sizes row term landing) × (row + k * plan.now.sizes.cycle ≤ latest plan.now.sizes) }
    ensures { seen_of result ≡ value_at (run_of plan.now.bytes.now) term (row + k * plan.now.sizes.cycle) }
{
    match term {
        Term::Constant(z) => Seen::Number(constant(z)),
        Term::Reading { channel, shift } => seen_on_landing(
            plan,
            channel,
            landing,
            row + k * plan.sizes.cycle + code_of(shift),
            k,
        ),
    }
}

// The line of a channel from a row and a pass on.
fn channel_line(plan: &Plan, channel: usize, row: usize, pass: usize) -> LiftedLine
    requires { (channel < plan.now.sizes.channels) × (row < all_rows plan.now.sizes) × (pass < passes) }
    ensures { (line_of result ≡ line_on plan.now.bytes.now channel row pass) × (Low result) }
{
    LiftedLine {
        at: plan.number_at(channel, row, pass),
        step: plan.drift_at(channel, row),
    }
}

// The line of a term from pass k on, of a row from which its shift lands so.
pub fn landed_line(plan: &Plan, term: Term, landing: Landing, k: usize) -> LiftedLine
    requires { (term_fits plan.now.sizes.channels term ≡ true) × (Reached plan.now.sizes landing k) }
    ensures { (line_of result ≡ landed_line plan.now.bytes.now term landing k) × (Low result) }
{
    match term {
        Term::Constant(z) => LiftedLine {
            at: constant(z),
            step: BIAS,
        },
        Term::Reading { channel, shift: _ } => channel_line(
            plan,
            channel,
            landing.row,
            k + landing.off - 4,
        ),
    }
}
