// Judges one comparison, window or pinned reading of the file rule.bin on one row of the file plan.bin, both of the current folder,
// over all passes. The part and the row are the program's two arguments. Prints one line: `always false`, `always true`, `changes`
// or `refused N P R`.
#![tactic(auto)]

use command::{PLAN_ROOM, RULE_ROOM};
use std::io;

// The answer is the number that C gets: the programs run what C calls.
fn print(rt: &impl Print, answer: u64) -> io::Result<()> {
    match answer {
        0 => println!(rt; "always false"),
        1 => println!(rt; "always true"),
        2 => println!(rt; "changes"),
        _ => command::print_refused(rt, answer),
    }
}

// Each buffer holds one byte more than the longest file that is right, so that a longer one is refused by its length.
fn main(rt: HostRuntime) -> io::Result<()> {
    let mut rule = [0u8; RULE_ROOM];
    let mut plan = [0u8; PLAN_ROOM];
    let r = command::load(&rt, b"rule.bin", &mut rule);
    let p = command::load(&rt, b"plan.bin", &mut plan);
    let answer = endless_run::endless_run_judge(
        &rule[..r],
        &plan[..p],
        command::argument(&rt, 1),
        command::argument(&rt, 2),
    );
    print(&rt, answer)
}
