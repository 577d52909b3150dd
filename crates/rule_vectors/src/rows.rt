// Rows of tries: a letter, four numbers of six columns each and a name. A section of them ends at an empty line.
// b AT COUNT VALUE PART: so many bytes of the four parts from AT on get the value, and PART is taken. w likewise: of the window;
// p of the pinned reading. AT and COUNT are taken modulo 64.
// 1 PART KIND NAMED 0 and 2 PART KIND NAMED NAMED: an operator over one part or two is put at PART.
ghost use Rattle.std.specs.Prelude.{◌+◌, ◌≤◌, ◌<◌, length};

use crate::sheets::{four_parts, one_pinned, one_window};
use crate::takes::try_changed;
use std::io;

// A digit; a blank counts as 0.
fn digit(x: u8) -> usize
    ensures { result < 16 }
{
    (x % 16) as usize
}

fn number_at(row: &[u8], at: usize) -> usize
    requires { at + 6 ≤ length row.now }
{
    let mut n = 0;
    for &x in &row[at..at + 6] {
        n = n % 100000 * 10 + digit(x);
    }
    n
}

// The kind is a number here: a row may name one that is no kind.
fn try_named(
    rt: &impl Print,
    letter: u8,
    name: &[u8],
    n: usize,
    kind: u8,
    a: usize,
    b: usize,
) -> io::Result<()> {
    let part = if letter == b'2' {
        rule::kinds::two_part(kind, a, b)
    } else {
        rule::kinds::one_part(kind, a)
    };
    crate::puts::try_put(rt, name, n, part)
}

fn try_row(rt: &impl Print, row: &[u8]) -> io::Result<()> {
    if row.len() < 26 {
        return Ok(());
    }
    let first = number_at(row, 1);
    let second = number_at(row, 7);
    let third = number_at(row, 13);
    let fourth = number_at(row, 19);
    let name = &row[26..];
    let byte = (third % 256) as u8;
    match row[0] {
        b'b' => try_changed(rt, name, &mut four_parts(), first, second, byte, fourth),
        b'w' => try_changed(rt, name, &mut one_window(), first, second, byte, fourth),
        b'p' => try_changed(rt, name, &mut one_pinned(), first, second, byte, fourth),
        letter => try_named(rt, letter, name, first, (second % 256) as u8, third, fourth),
    }
}

// Where the line that starts at `from` ends.
fn line_end(text: &[u8], from: usize) -> usize
    requires { from ≤ length text.now }
    ensures { (from ≤ result) × (result ≤ length text.now) }
{
    match text[from..].iter().position(|&x| x == b'\n') {
        Some(n) => from + n,
        None => text.len(),
    }
}

// The section of rows that starts at `from`; answers where the next one starts.
pub fn try_rows(rt: &impl Print, text: &[u8], from: usize) -> io::Result<usize> {
    let mut i = from;
    // No `for`: each step is as long as a line, and the lines end with an empty one.
    while i < text.len() {
        let end = line_end(text, i);
        if end == i {
            return Ok(end + 1);
        }
        try_row(rt, &text[i..end])?;
        i = end + 1;
    }
    Ok(i)
}
