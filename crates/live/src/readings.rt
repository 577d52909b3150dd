// The newest rows as the state keeps them, and what is seen of a term in them.
ghost use Rattle.std.specs.Prelude.{◌≡◌, ℕ, ◌+◌, ◌*◌, ◌≤◌, ◌<◌, length};
ghost use Rattle.fields.specs.LittleEndian.{number_at};
ghost use Rattle.live.specs.Kept.{kept, kept_under, new_reading, reading_after, readings_after};
ghost use Rattle.live.specs.Truths.{reading_at, term_value};

use fields::{BIAS, u32_at};

// What is kept of a pinned reading, and of none.
pub const PINNED: u64 = 4294967296;

const UNSEEN: u64 = 4294967297;

// The number that a pattern of 32 bits stands for, kept without a sign.
pub fn kept_number(pattern: u32) -> u64
    ensures { (result ≡ kept pattern) × (result < 4294967296) }
{
    ((pattern as u64) + 2147483648) % 4294967296
}

// A reading under its channel's top, 0 being none.
fn under_top(top: u32, reading: u64) -> u64
    ensures { result ≡ kept_under top reading }
{
    if top == 0 {
        return reading;
    }
    if (top as u64) + BIAS <= reading {
        PINNED
    } else {
        reading
    }
}

// What is kept of a channel of a new row.
fn new_reading(tops: &[u32; 8], row: &[u8], v: usize, channel: usize) -> u64
    requires { (length row.now ≡ 4 * v) × (channel < 8) }
    ensures { result ≡ new_reading tops.now row.now v channel }
{
    if v <= channel {
        return 0;
    }
    under_top(tops[channel], kept_number(u32_at(row, 4 * channel)))
}

// A new row kept: the oldest row goes, and the new one comes behind the others.
pub fn keep_row(readings: &mut [u64; 40], tops: &[u32; 8], row: &[u8], v: usize)
    requires { length row.now ≡ 4 * v }
    ensures { readings.new ≡ readings_after readings.old tops.now row.now v }
{
    // In two parts, each small enough to be put here: of one the compiler makes a call of C's `memmove`.
    readings.copy_within(8..24, 0);
    readings.copy_within(24..40, 16);
    for channel in 0..8 {
        readings[32 + channel] = new_reading(tops, row, v, channel);
    }
}

// The reading at a place of the kept rows, of which those from before the add are not seen.
fn reading_at(readings: &[u64; 40], age: usize, at: usize) -> u64
    requires { age ≤ 5 }
    ensures { result ≡ reading_at readings.now age at }
{
    if at < 40 - 8 * age {
        return UNSEEN;
    }
    if 40 <= at {
        return UNSEEN;
    }
    readings[at]
}

// What is kept of the term that six bytes of a rule stand for.
pub fn term_value(rule: &[u8], at: usize, readings: &[u64; 40], age: usize) -> u64
    requires { (at + 6 ≤ length rule.now) × (age ≤ 5) }
    ensures { result ≡ term_value readings.now age rule.now at }
{
    let number = u32_at(rule, at + 2);
    if rule[at] == 0 {
        return kept_number(number);
    }
    reading_at(readings, age, 8 * rule[at + 1] as usize + number as usize)
}
