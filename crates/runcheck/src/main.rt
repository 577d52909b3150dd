// Checks the files rule.bin, plan.bin and marks.bin of the current folder and prints one line: `accepted V` or
// `refused N P R`.
#![tactic(auto)]

use command::{PLAN_ROOM, RULE_ROOM};
use std::io;

// The answer is the number that C gets: the programs run what C calls.
fn print(rt: &impl Print, answer: u64) -> io::Result<()> {
    if answer < 2 {
        println!(rt; "accepted {answer}")
    } else {
        command::print_refused(rt, answer)
    }
}

// Each buffer holds one byte more than the longest file that is right, so that a longer one is refused by its length.
fn main(rt: HostRuntime) -> io::Result<()> {
    let mut rule = [0u8; RULE_ROOM];
    let mut plan = [0u8; PLAN_ROOM];
    let mut marks = [0u8; 16517];
    let r = command::load(&rt, b"rule.bin", &mut rule);
    let p = command::load(&rt, b"plan.bin", &mut plan);
    let m = command::load(&rt, b"marks.bin", &mut marks);
    print(
        &rt,
        endless_run::endless_run_check(&rule[..r], &plan[..p], &marks[..m]),
    )
}
