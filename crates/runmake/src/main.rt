// Makes the mark table of the files rule.bin and plan.bin of the current folder, writes it to marks.bin there and prints one
// line: `made V`, or `refused N P R`, when marks.bin is left alone.
#![tactic(auto)]

ghost use Rattle.std.specs.Prelude.{◌≡◌, ◌+◌, ◌*◌, ◌≤◌, length};
ghost use Rattle.refusal.specs.Outcome.{unrefused};
ghost use Rattle.rule.specs.Layout.{part_count};
ghost use Rattle.plan.specs.Layout.{rows};
ghost use Rattle.inputs.specs.Outcome.{inputs_outcome};

use command::{PLAN_ROOM, RULE_ROOM};
use std::rt::Files;
use std::{fs, io};

// How long the mark table is; 0 where the rule or the plan is refused, when a buffer of any length is refused alike.
fn table_length(rule: &[u8], plan: &[u8]) -> usize
    ensures { (result ≤ 16516) × (inputs_outcome rule.now plan.now ≡ unrefused → result ≡ 4 + part_count rule.now * rows plan.now + 2 * part_count rule.now) × (¬ (inputs_outcome rule.now plan.now ≡ unrefused) → result ≡ 0) }
{
    match inputs::read_inputs(rule, plan) {
        Ok(inputs) => {
            let sizes = inputs.plan.sizes;
            4 + inputs.parts * (sizes.start + sizes.cycle) + 2 * inputs.parts
        }
        Err(_) => 0,
    }
}

// A table that can't be written is not said to be made: the reason goes to standard error. The file is opened only here, once the table
// is made.
fn report<R: Files + Print + Eprint>(rt: &R, answer: u64, table: &[u8]) -> io::Result<()> {
    if answer < 2 {
        match fs::write(rt, "marks.bin", table) {
            Ok(()) => println!(rt; "made {answer}"),
            Err(e) => eprintln!(rt; "marks.bin: {e}"),
        }
    } else {
        command::print_refused(rt, answer)
    }
}

// The answer is the number that C gets: the programs run what C calls.
fn make<R: Files + Print + Eprint>(
    rt: &R,
    rule: &[u8],
    plan: &[u8],
    table: &mut [u8],
) -> io::Result<()> {
    let answer = endless_run::endless_run_make(rule, plan, table);
    report(rt, answer, table)
}

// The table is made in the front part of a buffer for the largest one.
fn make_in<R: Files + Print + Eprint>(
    rt: &R,
    rule: &[u8],
    plan: &[u8],
    buffer: &mut [u8],
) -> io::Result<()>
    requires { 16516 ≤ length buffer.old }
{
    let n = table_length(rule, plan);
    make(rt, rule, plan, &mut buffer[..n])
}

// Each buffer of a file holds one byte more than the longest file that is right, so that a longer one is refused by its length.
fn main(rt: HostRuntime) -> io::Result<()> {
    let mut rule = [0u8; RULE_ROOM];
    let mut plan = [0u8; PLAN_ROOM];
    let mut marks = [0u8; 16516];
    let r = command::load(&rt, b"rule.bin", &mut rule);
    let p = command::load(&rt, b"plan.bin", &mut plan);
    make_in(&rt, &rule[..r], &plan[..p], &mut marks)
}
