// The truths of a rule's parts on the newest row, read off the bytes of the rule. Nothing is asked of those bytes, as the state may come
// from C.
ghost use Rattle.std.specs.Prelude.{◌≡◌, Bool, ◌+◌, ◌*◌, ◌%◌, ◌≤◌, ◌<◌, eqb, length, get_or};
ghost use Rattle.std.specs.Int.Signed.{lt_z};
ghost use Rattle.cltlb.specs.Week.{in_window};
ghost use Rattle.rule.specs.Layout.{kind_byte, operand_place};
ghost use Rattle.table.specs.Bytes.{byte_of};
ghost use Rattle.verdict.specs.Lines.{eq_z};
ghost use Rattle.verdict.specs.Comparisons.{of_number, of_numbers, seen_pinned};
ghost use Rattle.live.specs.Kept.{seen_of};
ghost use Rattle.live.specs.inner.Minutes.{in_minutes};
ghost use Rattle.live.specs.Truths.{negated, earlier, named, kind_truth, truths_to};

use crate::readings::{PINNED, term_value};
use fields::u16_at;

// Not, of a byte that is 0 or 1.
fn negation(x: u8) -> u8
    ensures { result ≡ negated x }
{
    if x == 1 { 0 } else { 1 }
}

// Comparisons of what is kept: false where one is pinned or not seen.
fn below(x: u64, y: u64) -> u8
    ensures { result ≡ byte_of (of_numbers lt_z (seen_of x) (seen_of y)) }
{
    u8::from((x < y) & (y < PINNED))
}

fn same(x: u64, y: u64) -> u8
    ensures { result ≡ byte_of (of_numbers eq_z (seen_of x) (seen_of y)) }
{
    u8::from((x == y) & (y < PINNED))
}

fn is_pinned(x: u64) -> u8
    ensures { result ≡ byte_of (seen_pinned (seen_of x)) }
{
    u8::from(x == PINNED)
}

// The minute is in the window; one that runs over the end of the week has its end before its beginning.
fn in_window(minute: u64, from: u64, to: u64) -> bool
    ensures { result ≡ in_minutes from to minute }
{
    if from < to {
        (from <= minute) & (minute < to)
    } else {
        (from <= minute) | (minute < to)
    }
}

fn within(x: u64, from: usize, to: usize) -> u8
    ensures { result ≡ byte_of (of_number (seen_of x) (in_window from to)) }
{
    if PINNED <= x {
        return 0;
    }
    // 2^31 + 9952 is whole weeks.
    u8::from(in_window((x + 9952) % 10080, from as u64, to as u64))
}

// On the first row since the add what an operator begins with, later what is known of the row before.
fn since_add(age: usize, begin: u8, before: u8) -> u8
    ensures { result ≡ earlier age begin before }
{
    if age == 1 { begin } else { before }
}

// The byte of the part that two bytes of a rule name.
fn byte_named(rule: &[u8], at: usize, truths: &[u8; 64]) -> u8
    requires { at + 2 ≤ length rule.now }
    ensures { result ≡ named rule.now truths.now at }
{
    truths[u16_at(rule, at) % 64]
}

// Part i of a kind, its operand from `at` on, from the truths of lower parts. The kind is a byte and no enum, as it may be any byte.
fn kind_truth(
    rule: &[u8],
    kind: u8,
    at: usize,
    readings: &[u64; 40],
    age: usize,
    before: &[u8; 64],
    this: &[u8; 64],
    i: usize,
) -> u8
    requires { (at + 12 ≤ length rule.now) × (age ≤ 5) × (i < 64) }
    ensures { result ≡ kind_truth readings.now age rule.now before.now kind at this.now i }
{
    match kind {
        1 => below(
            term_value(rule, at, readings, age),
            term_value(rule, at + 6, readings, age),
        ),
        2 => same(
            term_value(rule, at, readings, age),
            term_value(rule, at + 6, readings, age),
        ),
        3 => negation(byte_named(rule, at, this)),
        4 => byte_named(rule, at, this).min(byte_named(rule, at + 2, this)),
        5 => byte_named(rule, at, this).max(byte_named(rule, at + 2, this)),
        9 => since_add(age, 0, byte_named(rule, at, before)),
        10 => since_add(age, 1, byte_named(rule, at, before)),
        11 => {
            let since = since_add(age, 0, before[i]);
            byte_named(rule, at + 2, this).max(byte_named(rule, at, this).min(since))
        }
        12 => {
            let trigger = since_add(age, 1, before[i]);
            byte_named(rule, at + 2, this).min(byte_named(rule, at, this).max(trigger))
        }
        13 => within(
            term_value(rule, at, readings, age),
            u16_at(rule, at + 6),
            u16_at(rule, at + 8),
        ),
        14 => is_pinned(term_value(rule, at, readings, age)),
        _ => 0,
    }
}

// The truths of the n parts of a rule on the newest row, one after another.
pub fn truths_of(
    rule: &[u8],
    n: usize,
    readings: &[u64; 40],
    age: usize,
    before: &[u8; 64],
) -> [u8; 64]
    requires { (4 + 13 * n ≤ length rule.now) × (n ≤ 64) × (age ≤ 5) }
    ensures { result ≡ truths_to readings.now age rule.now before.now n n }
{
    let mut this = [0u8; 64];
    for i in 0..n {
        let byte = kind_truth(
            rule,
            rule[4 + i],
            4 + n + 12 * i,
            readings,
            age,
            before,
            &this,
            i,
        );
        this[i] = byte;
    }
    this
}
