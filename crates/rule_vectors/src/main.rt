// Tries of rule sheets byte by byte: take, put and check_sheet at the edges of the layout, each with its neighbour on the
// other side. Every try prints one line. Most tries are rows of the input (rows.rt), in sections.
#![tactic(auto)]

ghost use Rattle.std.specs.Prelude.{◌≡◌, ◌≤◌, length, take};

use std::io;
use std::io::{Input, Read};

mod print;
mod puts;
mod rows;
mod sheets;
mod takes;

fn main(rt: HostRuntime) -> io::Result<()> {
    let mut text = [0u8; 8192];
    let n = read_full(&mut rt.reader(), &mut text);
    takes::lengths(&rt)?;
    takes::counts(&rt)?;
    run_rows(&rt, &text[..n])?;
    puts::put_into_sizes(&rt)
}

// Reads until the buffer is full, the input ends or a read fails; answers how many bytes stand at the front of the buffer then.
fn read_full(input: &mut impl Read, buffer: &mut [u8]) -> usize
    ensures in_bounds { result ≤ length buffer.new }
    ensures front { result ≡ length (take result buffer.new) }
{
    let mut done = 0;
    // No `for`: each step is as long as what was read.
    while done < buffer.len() {
        match input.read(&mut buffer[done..]) {
            Ok(0) | Err(_) => break,
            Ok(n) => done += n,
        }
    }
    done
}

// The sections of rows, and between them the tries that no row holds.
fn run_rows(rt: &impl Print, text: &[u8]) -> io::Result<()> {
    let names = rows::try_rows(rt, text, 0)?;
    takes::far_numbers(rt)?;
    puts::put_comparisons(rt)?;
    let numbers = rows::try_rows(rt, text, names)?;
    puts::put_readings(rt)?;
    puts::put_windows(rt)?;
    puts::put_pinned(rt)?;
    rows::try_rows(rt, text, numbers)?;
    puts::put_far(rt)
}
