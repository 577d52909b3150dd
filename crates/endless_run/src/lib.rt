// What C calls, by way of endless_run_c: the whole check, the maker, settling and judge over byte slices, and the calls on a live state,
// each answer packed into one number.
#![tactic(auto)]

ghost use Rattle.std.specs.Prelude.{◌≡◌, ◌<◌};
ghost use Rattle.refusal.specs.Report.{report_of};
ghost use Rattle.endless_run.specs.Packing.{refusal_word, unpacked, check_word, verdict_word};
ghost use Rattle.endless_run.specs.Promise.{CheckWordPromise, MakeWordPromise, SettleWordPromise, JudgeWordPromise};
ghost use Rattle.endless_run.specs.inner.Small.{SmallRefusal};

use refusal::{Refusal, Report};
use verdict::Verdict;

pub mod live_calls;

// A refusal as one number: number × 2^32 + part × 2^16 + row.
pub fn refusal_word(refusal: Refusal) -> u64
    requires { ((report_of refusal).part < 65536) × ((report_of refusal).row < 65536) }
    ensures { result ≡ refusal_word refusal }
{
    let report = refusal::report_of(refusal);
    let number = report.number;
    let part = report.part;
    let row = report.row;
    (number as u64) * 4294967296 + (part as u64) * 65536 + (row as u64)
}

// The number, part and row of a refusal that was returned as one number, for programs in Rattle: taken apart as the header does.
pub fn report_in(word: u64) -> Report
    ensures { result ≡ unpacked word }
{
    Report {
        number: (word / 4294967296) as usize,
        part: (word / 65536 % 65536) as usize,
        row: (word % 65536) as usize,
    }
}

fn verdict_word(verdict: Verdict) -> u64
    ensures { result ≡ verdict_word verdict }
{
    match verdict {
        Verdict::AlwaysFalse => 0,
        Verdict::AlwaysTrue => 1,
        Verdict::Changes => 2,
    }
}

// A truth as 0 or 1, or the refusal as one number.
fn truth_word(answer: Result<bool, Refusal>) -> u64
    requires { SmallRefusal answer }
    ensures { result ≡ check_word answer }
{
    match answer {
        Ok(holds) => u64::from(holds),
        Err(refusal) => refusal_word(refusal),
    }
}

pub fn endless_run_check(rule: &[u8], plan: &[u8], marks: &[u8]) -> u64
    ensures { CheckWordPromise rule.now plan.now marks.now result }
{
    truth_word(acceptance::check(rule, plan, marks))
}

pub fn endless_run_make(rule: &[u8], plan: &[u8], marks: &mut [u8]) -> u64
    ensures { MakeWordPromise rule.now plan.now marks.old marks.new result }
{
    truth_word(maker::make(rule, plan, marks))
}

pub fn endless_run_settle(rule: &[u8], plan: &[u8], laid: &mut [u8], scratch: &mut [u8]) -> u64
    ensures { SettleWordPromise rule.now plan.now laid.old scratch.old laid.new scratch.new result }
{
    match settling::settle(rule, plan, laid, scratch) {
        Ok(passes) => passes as u64,
        Err(refusal) => refusal_word(refusal),
    }
}

pub fn endless_run_judge(rule: &[u8], plan: &[u8], part: u64, row: u64) -> u64
    ensures { JudgeWordPromise rule.now plan.now part row result }
{
    match judge::judge(rule, plan, part as usize, row as usize) {
        Ok(verdict) => verdict_word(verdict),
        Err(refusal) => refusal_word(refusal),
    }
}
