// Tries of put: what it answers, how many bytes it changed, and what is taken there then.
ghost use Rattle.std.specs.Prelude.{◌≤◌};

use crate::print::{say, say_number, say_outcome, say_taken};
use crate::sheets::{first_example, four_parts, longer_example};
use crate::takes::try_sheet;
use cltlb::{Part, Term};
use std::io;

// How many bytes differ from place `from` to below `to`.
fn changed(a: &[u8; 56], b: &[u8; 56], from: usize, to: usize) -> u64
    requires { (from ≤ to) × (to ≤ 56) }
{
    a[from..to]
        .iter()
        .zip(&b[from..to])
        .filter(|(x, y)| x != y)
        .count() as u64
}

// How many bytes of the four parts were changed, of them the kind byte and the operand of part 2.
fn say_changes(rt: &impl Print, sheet: &[u8; 56]) -> io::Result<()> {
    let old = four_parts();
    say(rt, b", bytes changed")?;
    say_number(rt, changed(&old, sheet, 0, 56))?;
    say_number(rt, changed(&old, sheet, 6, 7))?;
    say_number(rt, changed(&old, sheet, 32, 44))
}

// A part put into the four parts, what that changed, and what is taken there then.
pub fn try_put(rt: &impl Print, name: &[u8], n: usize, part: Part) -> io::Result<()> {
    let mut sheet = four_parts();
    say(rt, b"put ")?;
    say(rt, name)?;
    say(rt, b": ")?;
    say_outcome(rt, rule::put(&mut sheet, n, part))?;
    say_changes(rt, &sheet)?;
    say(rt, b", take ")?;
    say_taken(rt, rule::take(&sheet, n))?;
    say(rt, b"\n")
}

fn reading(channel: usize, shift: i32) -> Term {
    Term::Reading { channel, shift }
}

pub fn put_comparisons(rt: &impl Print) -> io::Result<()> {
    try_put(
        rt,
        b"less",
        2,
        Part::Less(reading(0, -4), Term::Constant(-1)),
    )?;
    try_put(
        rt,
        b"equal",
        2,
        Part::Equal(Term::Constant(2147483647), reading(1, 4)),
    )
}

// A comparison of a reading with the lowest constant, put as part 2.
fn try_reading(rt: &impl Print, name: &[u8], channel: usize, shift: i32) -> io::Result<()> {
    try_put(
        rt,
        name,
        2,
        Part::Equal(Term::Constant(-2147483648), reading(channel, shift)),
    )
}

fn put_channels(rt: &impl Print) -> io::Result<()> {
    try_reading(rt, b"channel 1", 1, 0)?;
    try_reading(rt, b"channel 2, which is V", 2, 0)?;
    try_reading(rt, b"channel 4294967296", 4294967296, 0)
}

pub fn put_readings(rt: &impl Print) -> io::Result<()> {
    put_channels(rt)?;
    try_reading(rt, b"shift 4", 0, 4)?;
    try_reading(rt, b"shift 5", 0, 5)?;
    try_reading(rt, b"shift -4", 0, -4)?;
    try_reading(rt, b"shift -5", 0, -5)
}

// A window put as part 2.
fn try_window(
    rt: &impl Print,
    name: &[u8],
    channel: usize,
    shift: i32,
    from: usize,
    to: usize,
) -> io::Result<()> {
    try_put(
        rt,
        name,
        2,
        Part::Window {
            channel,
            shift,
            from,
            to,
        },
    )
}

fn put_windows_over(rt: &impl Print) -> io::Result<()> {
    try_window(rt, b"window of channel 1, shift -4", 1, -4, 540, 1020)?;
    try_window(rt, b"window of channel 2, which is V", 2, 0, 540, 1020)?;
    try_window(rt, b"window of shift 4", 0, 4, 540, 1020)?;
    try_window(rt, b"window of shift 5", 0, 5, 540, 1020)
}

pub fn put_windows(rt: &impl Print) -> io::Result<()> {
    put_windows_over(rt)?;
    try_window(rt, b"window from 10079 to 0", 0, 0, 10079, 0)?;
    try_window(rt, b"window from 10080", 0, 0, 10080, 0)?;
    try_window(rt, b"window to 10080", 0, 0, 0, 10080)?;
    try_window(rt, b"window from 65536", 0, 0, 65536, 540)?;
    try_window(rt, b"window from 540 to 540", 0, 0, 540, 540)
}

// "The reading is pinned" put at a number.
fn try_pinned(
    rt: &impl Print,
    name: &[u8],
    n: usize,
    channel: usize,
    shift: i32,
) -> io::Result<()> {
    try_put(rt, name, n, Part::Pinned { channel, shift })
}

pub fn put_pinned(rt: &impl Print) -> io::Result<()> {
    try_pinned(rt, b"pinned of channel 1, shift -4", 2, 1, -4)?;
    try_pinned(rt, b"pinned of channel 2, which is V", 2, 2, 0)?;
    try_pinned(rt, b"pinned of shift 4", 2, 0, 4)?;
    try_pinned(rt, b"pinned of shift 5", 2, 0, 5)?;
    try_pinned(rt, b"pinned over a comparison", 0, 1, -1)
}

// A number beyond what a row holds.
pub fn put_far(rt: &impl Print) -> io::Result<()> {
    try_put(rt, b"part 2^63", 9223372036854775808, Part::Not(2))
}

// A put of "1 = 2" into a sheet, and what the sheet is then.
fn put_into(rt: &impl Print, name: &[u8], sheet: &mut [u8]) -> io::Result<()> {
    say(rt, name)?;
    say_outcome(
        rt,
        rule::put(sheet, 0, Part::Equal(Term::Constant(1), Term::Constant(2))),
    )?;
    try_sheet(rt, b", then", sheet, 0)
}

// A sheet that has one byte more than its sizes give, and one that has not.
pub fn put_into_sizes(rt: &impl Print) -> io::Result<()> {
    let mut longer = longer_example();
    let mut right = first_example();
    put_into(rt, b"put into 18 bytes: ", &mut longer)?;
    put_into(rt, b"put into 17 bytes: ", &mut right)
}
