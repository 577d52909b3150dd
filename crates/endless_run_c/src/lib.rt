// The functions that C calls, as include/endless_run.h declares them: each calls the function of its name in endless_run.
#![tactic(auto)]

ghost use Rattle.endless_run.specs.Promise.{CheckWordPromise, MakeWordPromise, SettleWordPromise, JudgeWordPromise};
ghost use Rattle.endless_run.specs.LivePromise.{StartWordPromise, AddWordPromise, DropWordPromise, RowWordPromise, AnswerWordPromise};

use endless_run::live_calls;
use live::Live;

#[unsafe(no_mangle)]
pub extern "C" fn endless_run_check(rule: &[u8], plan: &[u8], marks: &[u8]) -> u64
    ensures { CheckWordPromise rule.now plan.now marks.now result }
{
    endless_run::endless_run_check(rule, plan, marks)
}

#[unsafe(no_mangle)]
pub extern "C" fn endless_run_make(rule: &[u8], plan: &[u8], marks: &mut [u8]) -> u64
    ensures { MakeWordPromise rule.now plan.now marks.old marks.new result }
{
    endless_run::endless_run_make(rule, plan, marks)
}

#[unsafe(no_mangle)]
pub extern "C" fn endless_run_settle(
    rule: &[u8],
    plan: &[u8],
    laid: &mut [u8],
    scratch: &mut [u8],
) -> u64
    ensures { SettleWordPromise rule.now plan.now laid.old scratch.old laid.new scratch.new result }
{
    endless_run::endless_run_settle(rule, plan, laid, scratch)
}

#[unsafe(no_mangle)]
pub extern "C" fn endless_run_judge(rule: &[u8], plan: &[u8], part: u64, row: u64) -> u64
    ensures { JudgeWordPromise rule.now plan.now part row result }
{
    endless_run::endless_run_judge(rule, plan, part, row)
}

#[unsafe(no_mangle)]
pub extern "C" fn endless_run_live_start(s: &mut Live, channels: u64, tops: &[u8]) -> u64
    ensures { StartWordPromise s.old channels tops.now s.new result }
{
    live_calls::endless_run_live_start(s, channels, tops)
}

#[unsafe(no_mangle)]
pub extern "C" fn endless_run_live_add(s: &mut Live, place: u64, rule: &[u8]) -> u64
    ensures { AddWordPromise s.old place rule.now s.new result }
{
    live_calls::endless_run_live_add(s, place, rule)
}

#[unsafe(no_mangle)]
pub extern "C" fn endless_run_live_drop(s: &mut Live, place: u64) -> u64
    ensures { DropWordPromise s.old place s.new result }
{
    live_calls::endless_run_live_drop(s, place)
}

#[unsafe(no_mangle)]
pub extern "C" fn endless_run_live_row(s: &mut Live, readings: &[u8]) -> u64
    ensures { RowWordPromise s.old readings.now s.new result }
{
    live_calls::endless_run_live_row(s, readings)
}

#[unsafe(no_mangle)]
pub extern "C" fn endless_run_live_answer(s: &Live, place: u64) -> u64
    ensures { AnswerWordPromise s.now place result }
{
    live_calls::endless_run_live_answer(s, place)
}
