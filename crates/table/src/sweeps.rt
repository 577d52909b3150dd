// Sweeps over the bytes of a mark table. Each goes through all its places and leaves none early, so that the compiler can
// take many at once; what it finds is that nothing is amiss. No table is longer than 4 + 64 × 256 + 2 × 64 bytes. Where every
// byte is known to be a mark, 0 or 1, marks are compared as bytes, without reading each one.
ghost use Rattle.std.specs.Prelude.{◌≡◌, true, false, not, ◌&&◌, ◌||◌, ◌+◌, ◌≤◌, eqb, ltb, length, get_or};
ghost use Rattle.std.specs.Bool.{beq};
ghost use Rattle.table.specs.inner.Tables.{all_below, flipped, copy_of, copies_of, step_of, steps_of, mark_in, most_bytes, MarkBytes};

use crate::all::{all_hold, all_hold_in_blocks};

// Every one of `count` bytes from `at` on is a mark, 0 or 1.
pub fn all_marks(table: &[u8], at: usize, count: usize) -> bool
    requires { (at + count ≤ length table.now) × (length table.now ≤ most_bytes) }
    ensures { result ≡ all_below (λ k. not (ltb 1 (get_or table.now (at + k) 0))) count }
{
    all_hold(count, |k| table[at + k] <= 1)
}

// None of `count` marks from `m` on is 1.
pub fn none_marked(table: &[u8], m: usize, count: usize) -> bool
    requires { (m + count ≤ length table.now) × (length table.now ≤ most_bytes) }
    ensures { result ≡ all_below (λ k. not (mark_in table.now (m + k))) count }
{
    all_hold(count, |k| table[m + k] != 1)
}

// A byte read as a mark, or as its opposite.
pub fn read(x: u8, opposite: bool) -> bool
    ensures { result ≡ flipped opposite (eqb x 1) }
{
    (x == 1) ^ opposite
}

// Two marks are the same.
pub fn agree(x: bool, y: bool) -> bool
    ensures { result ≡ beq x y }
{
    x == y
}

// b, or a and next
pub fn step(a: bool, b: bool, next: bool) -> bool
    ensures { result ≡ (b || (a && next)) }
{
    b | (a & next)
}

// A mark is b, or a and next.
fn up(m: u8, a: u8, b: u8, next: u8) -> bool
    requires { (m ≤ 1) × (a ≤ 1) × (b ≤ 1) × (next ≤ 1) }
    ensures { result ≡ step_of false (eqb m 1) (eqb a 1) (eqb b 1) (eqb next 1) }
{
    m == b.max(a.min(next))
}

// A mark is b, and (a or next): b, or a and next, of the opposites of all four.
fn down(m: u8, a: u8, b: u8, next: u8) -> bool
    requires { (m ≤ 1) × (a ≤ 1) × (b ≤ 1) × (next ≤ 1) }
    ensures { result ≡ step_of true (eqb m 1) (eqb a 1) (eqb b 1) (eqb next 1) }
{
    m == b.min(a.max(next))
}

// The mark at `m` is the one at `a`.
pub fn copied(table: &[u8], m: usize, a: usize) -> bool
    requires { (MarkBytes table.now m 1) × (MarkBytes table.now a 1) }
    ensures { result ≡ copy_of false (mark_in table.now m) (mark_in table.now a) }
{
    table[m] == table[a]
}

// The `count` marks from `m` on are those from `a` on.
pub fn copies(table: &[u8], m: usize, a: usize, count: usize) -> bool
    requires { (MarkBytes table.now m count) × (MarkBytes table.now a count) × (length table.now ≤ most_bytes) }
    ensures { result ≡ copies_of false (λ k. mark_in table.now (m + k)) (λ k. mark_in table.now (a + k)) count }
{
    all_hold_in_blocks(count, |k| table[m + k] == table[a + k])
}

// The `count` marks from `m` on are the opposites of those from `a` on.
pub fn opposites(table: &[u8], m: usize, a: usize, count: usize) -> bool
    requires { (MarkBytes table.now m count) × (MarkBytes table.now a count) × (length table.now ≤ most_bytes) }
    ensures { result ≡ copies_of true (λ k. mark_in table.now (m + k)) (λ k. mark_in table.now (a + k)) count }
{
    all_hold(count, |k| table[m + k] != table[a + k])
}

// The mark at `m` is b, or a and next, which are the marks at `b`, `a` and `next`; or it is so of the opposites of all four.
pub fn stepped(table: &[u8], m: usize, a: usize, b: usize, next: usize, opposite: bool) -> bool
    requires { (MarkBytes table.now m 1) × (MarkBytes table.now a 1) × (MarkBytes table.now b 1) × (MarkBytes table.now next 1) }
    ensures { result ≡ step_of opposite (mark_in table.now m) (mark_in table.now a) (mark_in table.now b) (mark_in table.now next) }
{
    if opposite {
        down(table[m], table[a], table[b], table[next])
    } else {
        up(table[m], table[a], table[b], table[next])
    }
}

// Each of the `count` marks from `m` on is b, or a and next, which are the marks from `b`, `a` and `next` on; or it is so of
// the opposites of all four, that is, each is b, and (a or next).
pub fn steps(
    table: &[u8],
    m: usize,
    a: usize,
    b: usize,
    next: usize,
    count: usize,
    opposite: bool,
) -> bool
    requires { (MarkBytes table.now m count) × (MarkBytes table.now a count) × (MarkBytes table.now b count) × (MarkBytes table.now next count) × (length table.now ≤ most_bytes) }
    ensures { result ≡ steps_of opposite (λ k. mark_in table.now (m + k)) (λ k. mark_in table.now (a + k)) (λ k. mark_in table.now (b + k)) (λ k. mark_in table.now (next + k)) count }
{
    if opposite {
        all_hold_in_blocks(count, |k| {
            down(table[m + k], table[a + k], table[b + k], table[next + k])
        })
    } else {
        all_hold_in_blocks(count, |k| {
            up(table[m + k], table[a + k], table[b + k], table[next + k])
        })
    }
}
