// Settles the plan of the file plan.bin for the rule of rule.bin, both of the current folder, writes the new plan to settled.bin there
// and prints one line: `settled N`, or `refused N P R`, when settled.bin is left alone.
#![tactic(auto)]

ghost use Rattle.std.specs.Prelude.{◌≡◌, ◌+◌, ◌*◌, ◌≤◌, length};
ghost use Rattle.plan.specs.Layout.{channels, start_rows, cycle_rows, lead_rows};

use command::{PLAN_ROOM, RULE_ROOM};
use fields::u16_at;
use std::rt::Files;
use std::{fs, io};

// How long a plan is, by the sizes at the front of a buffer.
fn plan_length(buffer: &[u8]) -> usize
    requires { 8 ≤ length buffer.now }
    ensures { result ≡ 8 + 4 * channels buffer.now + 8 * (channels buffer.now * (lead_rows buffer.now + (start_rows buffer.now + cycle_rows buffer.now))) }
{
    let v = u16_at(buffer, 0);
    let p = u16_at(buffer, 2);
    let c = u16_at(buffer, 4);
    let l = u16_at(buffer, 6);
    8 + 4 * v + 8 * (v * (l + (p + c)))
}

// A plan that can't be written is not said to be settled: the reason goes to standard error. The file is opened only here, once the plan
// is settled.
fn report<R: Files + Print + Eprint>(rt: &R, passes: u64, plan: &[u8]) -> io::Result<()> {
    match fs::write(rt, "settled.bin", plan) {
        Ok(()) => println!(rt; "settled {passes}"),
        Err(e) => eprintln!(rt; "settled.bin: {e}"),
    }
}

// The new plan is at the front of the buffer for the largest one. The answer is the number that C gets: the programs run what C calls.
fn settle<R: Files + Print + Eprint>(
    rt: &R,
    rule: &[u8],
    plan: &[u8],
    laid: &mut [u8],
    scratch: &mut [u8],
) -> io::Result<()> {
    let answer = endless_run::endless_run_settle(rule, plan, laid, scratch);
    if answer < 256 {
        let n = plan_length(laid);
        report(rt, answer, &laid[..n])
    } else {
        command::print_refused(rt, answer)
    }
}

// Each buffer of a file holds one byte more than the longest file that is right, so that a longer one is refused by its length.
fn main(rt: HostRuntime) -> io::Result<()> {
    let mut rule = [0u8; RULE_ROOM];
    let mut plan = [0u8; PLAN_ROOM];
    let mut laid = [0u8; 16680];
    let mut scratch = [0u8; 2048];
    let r = command::load(&rt, b"rule.bin", &mut rule);
    let p = command::load(&rt, b"plan.bin", &mut plan);
    settle(&rt, &rule[..r], &plan[..p], &mut laid, &mut scratch)
}
