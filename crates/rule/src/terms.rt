// A term in six bytes: held against the layout, read and written.
ghost use Rattle.std.specs.Prelude.{◌≡◌, true, ◌∷◌, ◌++◌, ◌+◌, ◌≤◌, length, get_or, drop};
ghost use Rattle.fields.specs.LittleEndian.{number_at, bytes_of};
ghost use Rattle.rule.specs.inner.Sound.{constant_sound, reading_sound, term_sound, IsTerm};
ghost use Rattle.rule.specs.inner.Words.{WordTerm};
ghost use Rattle.rule.specs.Terms.{shift_of, code_of, term_at, term_bytes};
ghost use Rattle.cltlb.specs.Fits.{shift_fits, term_fits};

use cltlb::Term;

fn shift_of(code: u8) -> i32
    ensures { result ≡ shift_of code }
{
    (code as i32) - 4
}

// The channel and the shift that six bytes from `at` on have where they are a reading.
pub fn channel_on(s: &[u8], at: usize) -> usize
    requires { at + 6 ≤ length s.now }
    ensures { result ≡ number_at 4 s.now (at + 2) }
{
    fields::u32_at(s, at + 2) as usize
}

pub fn shift_on(s: &[u8], at: usize) -> i32
    requires { at + 6 ≤ length s.now }
    ensures { result ≡ shift_of (get_or s.now (at + 1) 0) }
{
    shift_of(s[at + 1])
}

// Whether the six bytes from `at` on are a reading that fits `v` channels.
pub fn reading_sound(s: &[u8], at: usize, v: usize) -> bool
    requires { at + 6 ≤ length s.now }
    ensures { result ≡ reading_sound v (term_at s.now at) }
{
    let form = s[at];
    let code = s[at + 1];
    let channel = channel_on(s, at);
    (form == 1) & ((channel < v) & (code <= 8))
}

// Whether the six bytes from `at` on are a constant.
pub fn constant_sound(s: &[u8], at: usize) -> bool
    requires { at + 6 ≤ length s.now }
    ensures { result ≡ constant_sound (term_at s.now at) }
{
    let form = s[at];
    let code = s[at + 1];
    (form == 0) & (code == 4)
}

// Whether the six bytes from `at` on are a term that fits `v` channels.
pub fn term_sound(s: &[u8], at: usize, v: usize) -> bool
    requires { at + 6 ≤ length s.now }
    ensures { result ≡ term_sound v (term_at s.now at) }
{
    constant_sound(s, at) || reading_sound(s, at, v)
}

// The term that six bytes from `at` on are, once they are known to be one.
pub fn term_on(s: &[u8], at: usize) -> Term
    requires { at + 6 ≤ length s.now }
    ensures { IsTerm (term_at s.now at) result }
{
    if s[at] == 0 {
        return Term::Constant(fields::i32_at(s, at + 2));
    }
    Term::Reading {
        channel: channel_on(s, at),
        shift: shift_on(s, at),
    }
}

// The code of a shift from -4 to 4.
fn code_of(shift: i32) -> u8
    requires { shift_fits shift ≡ true }
    ensures { result ≡ code_of shift }
{
    (shift + 4) as u8
}

// Writes the three fields of a term over the six bytes at the front of a lent part.
fn put_fields(t: &mut [u8], form: u8, code: u8, number: u32)
    requires { 6 ≤ length t.old }
    ensures { t.new ≡ form ∷ code ∷ (bytes_of 4 number ++ drop 6 t.old) }
{
    t[0] = form;
    t[1] = code;
    fields::put_u32(&mut t[2..], number);
}

// Writes a term over the six bytes at the front of a lent part.
pub fn put_term(t: &mut [u8], x: Term)
    requires { (6 ≤ length t.old) × (term_fits 8 x ≡ true) }
    ensures { (t.new ≡ term_bytes x ++ drop 6 t.old) × WordTerm x }
{
    match x {
        Term::Constant(z) => put_fields(t, 0, 4, fields::pattern(z)),
        Term::Reading { channel, shift } => put_fields(t, 1, code_of(shift), channel as u32),
    }
}
