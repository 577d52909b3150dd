// What C calls on a live state, which is lent: start, add, drop, row and answer.
ghost use Rattle.std.specs.Prelude.{◌≡◌};
ghost use Rattle.endless_run.specs.Packing.{outcome_word, told_word};
ghost use Rattle.endless_run.specs.LivePromise.{StartWordPromise, AddWordPromise, DropWordPromise, RowWordPromise, AnswerWordPromise};
ghost use Rattle.endless_run.specs.inner.Small.{SmallRefusal};

use crate::refusal_word;
use live::{Answer, Live};
use refusal::Refusal;

// 0, or the refusal as one number.
fn outcome_word(outcome: Result<(), Refusal>) -> u64
    requires { SmallRefusal outcome }
    ensures { result ≡ outcome_word outcome }
{
    match outcome {
        Ok(()) => 0,
        Err(refusal) => refusal_word(refusal),
    }
}

// 0 false, 1 true, 2 not yet, 3 empty.
fn told_word(told: Answer) -> u64
    ensures { result ≡ told_word told }
{
    match told {
        Answer::Truth(holds) => u64::from(holds),
        Answer::NotYet => 2,
        Answer::Empty => 3,
    }
}

pub fn endless_run_live_start(s: &mut Live, channels: u64, tops: &[u8]) -> u64
    ensures { StartWordPromise s.old channels tops.now s.new result }
{
    outcome_word(s.start(channels as usize, tops))
}

pub fn endless_run_live_add(s: &mut Live, place: u64, rule: &[u8]) -> u64
    ensures { AddWordPromise s.old place rule.now s.new result }
{
    outcome_word(s.add(place as usize, rule))
}

pub fn endless_run_live_drop(s: &mut Live, place: u64) -> u64
    ensures { DropWordPromise s.old place s.new result }
{
    outcome_word(s.remove(place as usize))
}

pub fn endless_run_live_row(s: &mut Live, readings: &[u8]) -> u64
    ensures { RowWordPromise s.old readings.now s.new result }
{
    outcome_word(s.row(readings))
}

pub fn endless_run_live_answer(s: &Live, place: u64) -> u64
    ensures { AnswerWordPromise s.now place result }
{
    match s.answer(place as usize) {
        Ok(told) => told_word(told),
        Err(refusal) => refusal_word(refusal),
    }
}
