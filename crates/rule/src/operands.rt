// An operand in twelve bytes: held against the layout, and written.
ghost use Rattle.std.specs.Prelude.{◌≡◌, true, false, ◌&&◌, ◌++◌, ℕ, ◌+◌, ◌≤◌, ◌<◌, ltb, length, take, drop, replicate};
ghost use Rattle.fields.specs.LittleEndian.{number_at};
ghost use Rattle.rule.specs.Terms.{term_bytes, term_at};
ghost use Rattle.rule.specs.Operands.{operand_at, end_bytes, operand_bytes, all_zero};
ghost use Rattle.rule.specs.Kinds.{operand_in, is_unknown};
ghost use Rattle.cltlb.specs.Fits.{term_fits, window_fits, atom_fits, names_lower, view_fits};
ghost use Rattle.rule.specs.inner.Sound.{reading_sound, operand_sound, of_atom};
ghost use Rattle.rule.specs.inner.Words.{WordOperand};

use cltlb::{Atom, Operator, Term, View};

pub const OPERAND_BYTES: usize = 12;

// What a part works on: two terms, one or two parts that it names, a reading and the two ends of a window, or a
// reading alone.
#[derive(Clone, Copy)]
pub enum Operand {
    Terms(Term, Term),
    One(usize),
    Two(usize, usize),
    Window {
        channel: usize,
        shift: i32,
        from: usize,
        to: usize,
    },
    Pinned {
        channel: usize,
        shift: i32,
    },
}

// Which operand a kind byte asks for. Not an Option of the rest: a check of 64 comparisons took four times as long with that.
#[derive(Clone, Copy)]
pub enum Shape {
    Comparison,
    NamesOne,
    NamesTwo,
    Window,
    Pinned,
    Unknown,
}

// Whether the last eight of twelve bytes from `at` on are zero: what stands behind two names.
fn rest_zero(s: &[u8], at: usize) -> bool
    requires { at + 12 ≤ length s.now }
    ensures { result ≡ all_zero (take 8 (drop (at + 4) s.now)) }
{
    (fields::u32_at(s, at + 4) == 0) & (fields::u32_at(s, at + 8) == 0)
}

// Whether the twelve bytes from `at` on name one part, lower than `n`; `rest` says whether the last eight are zero.
fn name_sound(s: &[u8], at: usize, n: usize, rest: bool) -> bool
    requires { (at + 12 ≤ length s.now) × (rest ≡ all_zero (take 8 (drop (at + 4) s.now))) }
    ensures { result ≡ (ltb (number_at 2 s.now at) n && all_zero (take 10 (drop (at + 2) s.now))) }
{
    (fields::u16_at(s, at) < n) & ((fields::u16_at(s, at + 2) == 0) & rest)
}

// Whether the twelve bytes from `at` on name two parts, both lower than `n`; `rest` likewise.
fn names_sound(s: &[u8], at: usize, n: usize, rest: bool) -> bool
    requires { (at + 12 ≤ length s.now) × (rest ≡ all_zero (take 8 (drop (at + 4) s.now))) }
    ensures { result ≡ ((ltb (number_at 2 s.now at) n && ltb (number_at 2 s.now (at + 2)) n) && all_zero (take 8 (drop (at + 4) s.now))) }
{
    ((fields::u16_at(s, at) < n) & (fields::u16_at(s, at + 2) < n)) & rest
}

// Whether the twelve bytes from `at` on are a window: a reading, of which `reading` says whether it fits, the ends of a window, and
// two zero bytes. It names no part, so that its own number `n` is no matter.
fn window_sound(s: &[u8], at: usize, reading: bool) -> bool
    requires { at + 12 ≤ length s.now }
    ensures { (v n : ℕ) → reading ≡ reading_sound v (term_at s.now at) → result ≡ operand_sound v n (operand_at Shape.Window s.now at) }
{
    let from = fields::u16_at(s, at + 6);
    let to = fields::u16_at(s, at + 8);
    (reading & cltlb::window_fits(from, to)) & (fields::u16_at(s, at + 10) == 0)
}

// Whether the twelve bytes from `at` on are an atom's operand that fits `v` channels; `rest` likewise. Its first term is looked at
// ahead of the shapes. Of the eight bytes that `rest` tells of, two are the upper half of the channel, which is below 8.
fn atom_sound(s: &[u8], at: usize, shape: Shape, v: usize, rest: bool) -> bool
    requires { (at + 12 ≤ length s.now) × (v ≤ 8) × (rest ≡ all_zero (take 8 (drop (at + 4) s.now))) × (of_atom shape ≡ true) }
    ensures { (n : ℕ) → result ≡ operand_sound v n (operand_at shape s.now at) }
{
    let reading = crate::terms::reading_sound(s, at, v);
    match shape {
        Shape::Window => window_sound(s, at, reading),
        Shape::Pinned => reading & rest,
        _ => (crate::terms::constant_sound(s, at) | reading)
            & crate::terms::term_sound(s, at + 6, v),
    }
}

// Whether the twelve bytes from `at` on are an operand of a known shape that fits `v` channels at number `n`. What several shapes ask
// is asked once: so the function is small enough for the compiler to put it into its callers.
pub fn operand_sound(s: &[u8], at: usize, shape: Shape, v: usize, n: usize) -> bool
    requires { (at + 12 ≤ length s.now) × (v ≤ 8) × (is_unknown shape ≡ false) }
    ensures { result ≡ operand_sound v n (operand_at shape s.now at) }
{
    let rest = rest_zero(s, at);
    match shape {
        Shape::NamesOne => name_sound(s, at, n, rest),
        Shape::NamesTwo => names_sound(s, at, n, rest),
        _ => atom_sound(s, at, shape, v, rest),
    }
}

// Writes zeros over the twelve bytes at the front of a lent part.
fn clear(t: &mut [u8])
    requires { 12 ≤ length t.old }
    ensures { t.new ≡ replicate 12 0 ++ drop 12 t.old }
{
    t[..OPERAND_BYTES].fill(0);
}

fn put_terms(t: &mut [u8], left: Term, right: Term)
    requires { (12 ≤ length t.old) × (term_fits 8 left ≡ true) × (term_fits 8 right ≡ true) }
    ensures { (t.new ≡ operand_bytes (Operand.Terms left right) ++ drop 12 t.old) × WordOperand (Operand.Terms left right) }
{
    crate::terms::put_term(t, left);
    crate::terms::put_term(&mut t[6..], right);
}

fn put_one(t: &mut [u8], a: usize)
    requires { (12 ≤ length t.old) × (a < 64) }
    ensures { t.new ≡ operand_bytes (Operand.One a) ++ drop 12 t.old }
{
    clear(t);
    fields::put_u16(t, a);
}

fn put_two(t: &mut [u8], a: usize, b: usize)
    requires { (12 ≤ length t.old) × (a < 64) × (b < 64) }
    ensures { t.new ≡ operand_bytes (Operand.Two a b) ++ drop 12 t.old }
{
    put_one(t, a);
    fields::put_u16(&mut t[2..], b);
}

// Writes the ends of a window and two zero bytes over the six bytes at the front of a lent part.
fn put_ends(t: &mut [u8], from: usize, to: usize)
    requires { (6 ≤ length t.old) × (window_fits from to ≡ true) }
    ensures { t.new ≡ end_bytes from to ++ drop 6 t.old }
{
    fields::put_u16(t, from);
    fields::put_u16(&mut t[2..], to);
    fields::put_u16(&mut t[4..], 0);
}

fn put_window(t: &mut [u8], reading: Term, from: usize, to: usize)
    requires { (12 ≤ length t.old) × (term_fits 8 reading ≡ true) × (window_fits from to ≡ true) }
    ensures { t.new ≡ (term_bytes reading ++ end_bytes from to) ++ drop 12 t.old }
{
    crate::terms::put_term(t, reading);
    put_ends(&mut t[6..], from, to);
}

// Writes a reading over zeros.
fn put_pinned(t: &mut [u8], reading: Term)
    requires { (12 ≤ length t.old) × (term_fits 8 reading ≡ true) }
    ensures { t.new ≡ (term_bytes reading ++ replicate 6 0) ++ drop 12 t.old }
{
    clear(t);
    crate::terms::put_term(t, reading);
}

fn put_atom(t: &mut [u8], x: Atom)
    requires { (12 ≤ length t.old) × (atom_fits 8 x ≡ true) }
    ensures { (t.new ≡ operand_bytes (operand_in (View.Atom x)) ++ drop 12 t.old) × WordOperand (operand_in (View.Atom x)) }
{
    match x {
        Atom::Less(left, right) => put_terms(t, left, right),
        Atom::Equal(left, right) => put_terms(t, left, right),
        Atom::Window {
            channel,
            shift,
            from,
            to,
        } => put_window(t, Term::Reading { channel, shift }, from, to),
        Atom::Pinned { channel, shift } => put_pinned(t, Term::Reading { channel, shift }),
    }
}

fn put_names(t: &mut [u8], x: Operator)
    requires { (12 ≤ length t.old) × (names_lower 64 x ≡ true) }
    ensures { (t.new ≡ operand_bytes (operand_in (View.Operator x)) ++ drop 12 t.old) × WordOperand (operand_in (View.Operator x)) }
{
    match x {
        Operator::One(_, a) => put_one(t, a),
        Operator::Two(_, a, b) => put_two(t, a, b),
    }
}

// Writes the operand of a part over the twelve bytes at the front of a lent part of a sheet.
pub fn put_operand(t: &mut [u8], x: View)
    requires { (12 ≤ length t.old) × (view_fits 8 64 x ≡ true) }
    ensures { (t.new ≡ operand_bytes (operand_in x) ++ drop 12 t.old) × WordOperand (operand_in x) }
{
    match x {
        View::Atom(atom) => put_atom(t, atom),
        View::Operator(operator) => put_names(t, operator),
    }
}
