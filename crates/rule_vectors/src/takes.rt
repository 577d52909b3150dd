// Tries of take and of the whole sheet, each edge of the layout with its neighbour on the other side.
use crate::print::{say, say_number, say_outcome, say_taken};
use crate::sheets::{fill, first_example, four_parts, longer_example};
use cltlb::{Part, Term};
use std::io;

// One part taken off a sheet, and the whole sheet checked.
pub fn try_sheet(rt: &impl Print, name: &[u8], sheet: &[u8], n: usize) -> io::Result<()> {
    say(rt, name)?;
    say(rt, b": take ")?;
    say_taken(rt, rule::take(sheet, n))?;
    say(rt, b", check ")?;
    say_outcome(rt, rule::check_sheet(sheet))?;
    say(rt, b"\n")
}

// A sheet with so many bytes from `at` on changed to x, both numbers taken modulo 64.
pub fn try_changed(
    rt: &impl Print,
    name: &[u8],
    sheet: &mut [u8],
    at: usize,
    count: usize,
    x: u8,
    n: usize,
) -> io::Result<()> {
    fill(sheet, at % 64, count % 64, x);
    try_sheet(rt, name, sheet, n)
}

// Every front part of a sheet, the shortest first, and the sheet.
fn try_lengths(rt: &impl Print, sheet: &[u8]) -> io::Result<()> {
    for size in 0..sheet.len() {
        say(rt, b"length")?;
        say_number(rt, size as u64)?;
        try_sheet(rt, b"", &sheet[..size], 0)?;
    }
    try_sheet(rt, b"all of it", sheet, 0)
}

pub fn lengths(rt: &impl Print) -> io::Result<()> {
    try_lengths(rt, &longer_example())
}

// A sheet of `count` parts over one channel, each of which is put as 0 < 0.
fn try_count(rt: &impl Print, name: &[u8], count: u8, sheet: &mut [u8]) -> io::Result<()> {
    fill(sheet, 0, 1, count);
    fill(sheet, 2, 1, 1);
    for n in 0..65 {
        let _ = rule::put(sheet, n, Part::Less(Term::Constant(0), Term::Constant(0)));
    }
    try_sheet(rt, name, sheet, 0)
}

fn try_few(rt: &impl Print) -> io::Result<()> {
    let mut none = [0u8; 4];
    let mut one = [0u8; 17];
    try_count(rt, b"N 0", 0, &mut none)?;
    try_count(rt, b"N 1", 1, &mut one)
}

// A count in the bytes of 64 parts, and of 65.
fn try_in_64(rt: &impl Print, name: &[u8], count: u8) -> io::Result<()> {
    let mut sheet = [0u8; 836];
    try_count(rt, name, count, &mut sheet)
}

fn try_in_65(rt: &impl Print, name: &[u8], count: u8) -> io::Result<()> {
    let mut sheet = [0u8; 849];
    try_count(rt, name, count, &mut sheet)
}

pub fn counts(rt: &impl Print) -> io::Result<()> {
    try_few(rt)?;
    try_in_64(rt, b"N 64", 64)?;
    try_in_65(rt, b"N 65", 65)?;
    try_in_64(rt, b"N 65 in the bytes of 64", 65)?;
    try_in_65(rt, b"N 64 in the bytes of 65", 64)
}

// Numbers of parts beyond what a row holds, and E1.
pub fn far_numbers(rt: &impl Print) -> io::Result<()> {
    try_sheet(rt, b"part 2^63", &four_parts(), 9223372036854775808)?;
    try_sheet(rt, b"part 2^64 - 1", &four_parts(), 18446744073709551615)?;
    try_sheet(rt, b"E1", &first_example(), 0)
}
