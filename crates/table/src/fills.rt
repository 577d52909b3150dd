// Marks and numbers written over places of a mark table. `m` is the place of the first mark written, `a` and `b` those of the
// first marks read, of other parts, which all lie before `m`. Where marks are made from others, `opposite` has the opposites read and
// written: R is U, and T is S, of the opposites, and one loop serves both. Where they are copied it has the opposites read.
ghost use Rattle.std.specs.Prelude.{◌≡◌, false, ◌||◌, ◌&&◌, ◌+◌, ◌-◌, ◌≤◌, ◌<◌, length, get_or};
ghost use Rattle.fields.specs.LittleEndian.{bytes_of};
ghost use Rattle.table.specs.Bytes.{byte_of, zeroed};
ghost use Rattle.table.specs.inner.Tables.{flipped, mark_in, most_bytes};
ghost use Rattle.table.specs.inner.Stored.{Stored};
ghost use Rattle.table.specs.inner.Sweeps.{carried, backed, marks_from};

use crate::sweeps::{read, step};
use fields::put_u16;

// The byte of a mark, or of its opposite.
fn byte(mark: bool, opposite: bool) -> u8
    ensures { result ≡ byte_of (flipped opposite mark) }
{
    u8::from(mark ^ opposite)
}

// b, or a and the mark beside it, of the marks at `a` and `b`, or of their opposites.
fn step_at(table: &[u8], a: usize, b: usize, beside: bool, opposite: bool) -> bool
    requires { (a < length table.now) × (b < length table.now) }
    ensures { result ≡ (flipped opposite (mark_in table.now b) || (flipped opposite (mark_in table.now a) && beside)) }
{
    step(read(table[a], opposite), read(table[b], opposite), beside)
}

// One mark.
pub fn put_mark(table: &mut [u8], at: usize, mark: bool)
    requires { at < length table.old }
    ensures { Stored table.old table.new at 0 1 (λ k. byte_of mark) }
{
    table[at] = byte(mark, false);
}

// A number of two bytes.
pub fn put_number(table: &mut [u8], at: usize, x: usize)
    requires { (at + 2 ≤ length table.old) × (length table.old ≤ most_bytes) × (x < 65536) }
    ensures { Stored table.old table.new at 0 2 (λ k. get_or (bytes_of 2 x) k 0) }
{
    put_u16(&mut table[at..], x);
}

// The marks from `a` on, or their opposites.
pub fn fill_copied(table: &mut [u8], m: usize, a: usize, count: usize, opposite: bool)
    requires { (m + count ≤ length table.old) × (a + count ≤ m) × (length table.old ≤ most_bytes) }
    ensures { Stored table.old table.new m 0 count (λ k. byte_of (marks_from opposite table.old a k)) }
{
    for k in 0..count {
        table[m + k] = byte(read(table[a + k], opposite), false);
    }
}

// b or a; or so of the opposites, that is, b and a.
pub fn fill_joined(table: &mut [u8], m: usize, a: usize, b: usize, count: usize, opposite: bool)
    requires { (m + count ≤ length table.old) × (a + count ≤ m) × (b + count ≤ m) × (length table.old ≤ most_bytes) }
    ensures { Stored table.old table.new m 0 count (λ k. byte_of (flipped opposite (marks_from opposite table.old b k || marks_from opposite table.old a k))) }
{
    for k in 0..count {
        table[m + k] = byte(
            read(table[b + k], opposite) | read(table[a + k], opposite),
            opposite,
        );
    }
}

// S, and T of the opposites: b, or a and the mark before.
pub fn fill_on(table: &mut [u8], m: usize, a: usize, b: usize, count: usize, opposite: bool)
    requires { (m + count ≤ length table.old) × (a + count ≤ m) × (b + count ≤ m) × (length table.old ≤ most_bytes) }
    ensures { Stored table.old table.new m 0 count (λ k. byte_of (flipped opposite (carried (marks_from opposite table.old a) (marks_from opposite table.old b) k))) }
{
    let mut mark = false;
    for k in 0..count {
        mark = step_at(table, a + k, b + k, mark, opposite);
        table[m + k] = byte(mark, opposite);
    }
}

// What U, and R of the opposites, come to at `from` when nothing comes after the `count` marks from there on.
pub fn swept_back(
    table: &[u8],
    a: usize,
    b: usize,
    from: usize,
    count: usize,
    opposite: bool,
) -> bool
    requires { (a + (from + count) ≤ length table.now) × (b + (from + count) ≤ length table.now) × (length table.now ≤ most_bytes) }
    ensures { result ≡ backed (marks_from opposite table.now a) (marks_from opposite table.now b) false count from }
{
    let mut mark = false;
    for k in (from..from + count).rev() {
        mark = step_at(table, a + k, b + k, mark, opposite);
    }
    mark
}

// U, and R of the opposites: b, or a and the mark after; `end` comes after the last.
pub fn fill_back(
    table: &mut [u8],
    m: usize,
    a: usize,
    b: usize,
    count: usize,
    end: bool,
    opposite: bool,
)
    requires { (m + count ≤ length table.old) × (a + count ≤ m) × (b + count ≤ m) × (length table.old ≤ most_bytes) }
    ensures { Stored table.old table.new m 0 count (λ k. byte_of (flipped opposite (backed (marks_from opposite table.old a) (marks_from opposite table.old b) end (count - k) k))) }
{
    let mut mark = end;
    for k in (0..count).rev() {
        mark = step_at(table, a + k, b + k, mark, opposite);
        table[m + k] = byte(mark, opposite);
    }
}

// All bytes 0.
pub fn clear(table: &mut [u8])
    requires { length table.old ≤ most_bytes }
    ensures { table.new ≡ zeroed table.old }
{
    table.fill(0);
}
