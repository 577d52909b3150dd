// What the programs share: a file and an argument read, and the line of a refusal.
#![tactic(auto)]

ghost use Rattle.std.specs.Prelude.{◌≡◌, ℕ, ◌≤◌, List, length, take, MatchOption};
ghost use Rattle.command.specs.Argument.{with_digit, argument_of};

use std::env::Env;
use std::io::Read;
use std::rt::Files;
use std::{fs, io};

// Room for a rule sheet and for a plan: one byte more than the longest that is right, so that a longer file is refused by its length.
pub const RULE_ROOM: usize = 837;

pub const PLAN_ROOM: usize = 16681;

// The start of a file, as much as the buffer holds. A file that cannot be opened counts as empty. The buffer is lent, with a length beside
// it: nothing here asks for a heap.
pub fn load(rt: &impl Files, path: &[u8], buffer: &mut [u8]) -> usize
    ensures in_bounds { result ≤ length buffer.new }
    ensures front { result ≡ length (take result buffer.new) }
{
    let Ok(path) = str::from_utf8(path) else {
        return 0;
    };
    match fs::open(rt, path) {
        Ok(mut file) => read_full(&mut file, buffer),
        Err(_) => 0,
    }
}

// Reads until the buffer is full, the file ends or a read fails; answers how many bytes stand at the front of the buffer then.
fn read_full(file: &mut impl Read, buffer: &mut [u8]) -> usize
    ensures in_bounds { result ≤ length buffer.new }
    ensures front { result ≡ length (take result buffer.new) }
{
    let mut done = 0;
    // No `for`: each step is as long as what was read.
    while done < buffer.len() {
        match file.read(&mut buffer[done..]) {
            Ok(0) | Err(_) => break,
            Ok(n) => done += n,
        }
    }
    done
}

// What names no part and no row: a part is below 64, and a row below 256. The number goes to a call of C's, which takes a number alone.
const NO_NUMBER: u64 = 65536;

// A number with one more decimal digit, given as its ASCII byte; 65536 where it would be larger.
fn with_digit(n: u64, digit: u8) -> u64
    requires { (n ≤ 65536) × (48 ≤ digit) }
    ensures { (result ≡ with_digit n digit) × (result ≤ 65536) }
{
    let next = 10 * n + u64::from(digit - b'0');
    next.min(NO_NUMBER)
}

// The number that decimal digits stand for, at most 65536; none where there are no digits, or where another byte is among them.
fn number_of(text: &[u8]) -> Option<u64>
    ensures { MatchOption result (argument_of text.now ≡ 65536) (λ n. argument_of text.now ≡ n) }
{
    if text.is_empty() {
        return None;
    }
    let mut n = 0;
    for digit in text {
        if !digit.is_ascii_digit() {
            return None;
        }
        n = with_digit(n, *digit);
    }
    Some(n)
}

// The number that an argument of the program stands for, whatever text it is; 65536 where it stands for none. A missing argument, or one of
// more than 32 bytes, is taken for an empty one.
pub fn argument(rt: &impl Env, i: usize) -> u64
    ensures { (text : List ℕ) × (result ≡ argument_of text) }
{
    let mut text = [0u8; 32];
    let n = rt.arg(i, &mut text).unwrap_or(0);
    number_of(&text[..n]).unwrap_or(NO_NUMBER)
}

// Prints `refused`, and the number, the part and the row of a refusal that was returned as one number.
pub fn print_refused(rt: &impl Print, word: u64) -> io::Result<()> {
    let report = endless_run::report_in(word);
    println!(rt; "refused {} {} {}", report.number, report.part, report.row)
}
