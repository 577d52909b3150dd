// The logic CLTLB over the whole numbers with < and =, windows of the week, and pinned readings: the terms and parts that a rule is
// made of, and how the logic looks at a part. What they mean is in specs/.
#![tactic(auto)]

ghost use Rattle.std.specs.Prelude.{◌≡◌};
ghost use Rattle.cltlb.specs.Views.{one_view, two_view, view_of};
ghost use Rattle.cltlb.specs.Fits.{term_fits, window_fits, atom_fits, names_lower, view_fits};

// The minutes of a week.
pub const WEEK: usize = 10080;

// A term (the field's arithmetic temporal term) is a constant, or the reading of a channel, which is a variable, at the present
// position plus a shift.
#[derive(Clone, Copy)]
pub enum Term {
    Constant(i32),
    Reading { channel: usize, shift: i32 },
}

// A part of a rule, that is, a subformula of its formula: a comparison of two terms, a window of the week or that a reading is pinned
// (an atomic constraint), or an operator over parts that are named by their numbers. A window is true where the reading, in minutes,
// lies in the part of the week that begins at `from` and ends before `to`.
#[derive(Clone, Copy)]
pub enum Part {
    Less(Term, Term),
    Equal(Term, Term),
    Not(usize),
    And(usize, usize),
    Or(usize, usize),
    Next(usize),
    Until(usize, usize),
    Release(usize, usize),
    Yesterday(usize),
    WeakYesterday(usize),
    Since(usize, usize),
    Trigger(usize, usize),
    Window {
        channel: usize,
        shift: i32,
        from: usize,
        to: usize,
    },
    Pinned {
        channel: usize,
        shift: i32,
    },
}

// What a part says of readings alone: the field's atomic constraint.
#[derive(Clone, Copy)]
pub enum Atom {
    Less(Term, Term),
    Equal(Term, Term),
    Window {
        channel: usize,
        shift: i32,
        from: usize,
        to: usize,
    },
    Pinned {
        channel: usize,
        shift: i32,
    },
}

// An operator over one part.
#[derive(Clone, Copy)]
pub enum Unary {
    Not,
    Next,
    Yesterday,
    WeakYesterday,
}

// An operator over two parts.
#[derive(Clone, Copy)]
pub enum Binary {
    And,
    Or,
    Until,
    Release,
    Since,
    Trigger,
}

// An operator with the parts that it names.
#[derive(Clone, Copy)]
pub enum Operator {
    One(Unary, usize),
    Two(Binary, usize, usize),
}

// A part as the logic looks at it: an atom, or an operator with the parts that it names.
#[derive(Clone, Copy)]
pub enum View {
    Atom(Atom),
    Operator(Operator),
}

// The views of operators.
fn one(operator: Unary, a: usize) -> View
    ensures { result ≡ one_view operator a }
{
    View::Operator(Operator::One(operator, a))
}

fn two(operator: Binary, a: usize, b: usize) -> View
    ensures { result ≡ two_view operator a b }
{
    View::Operator(Operator::Two(operator, a, b))
}

pub fn view_of(part: Part) -> View
    ensures { result ≡ view_of part }
{
    match part {
        Part::Less(x, y) => View::Atom(Atom::Less(x, y)),
        Part::Equal(x, y) => View::Atom(Atom::Equal(x, y)),
        Part::Not(a) => one(Unary::Not, a),
        Part::And(a, b) => two(Binary::And, a, b),
        Part::Or(a, b) => two(Binary::Or, a, b),
        Part::Next(a) => one(Unary::Next, a),
        Part::Until(a, b) => two(Binary::Until, a, b),
        Part::Release(a, b) => two(Binary::Release, a, b),
        Part::Yesterday(a) => one(Unary::Yesterday, a),
        Part::WeakYesterday(a) => one(Unary::WeakYesterday, a),
        Part::Since(a, b) => two(Binary::Since, a, b),
        Part::Trigger(a, b) => two(Binary::Trigger, a, b),
        Part::Window {
            channel,
            shift,
            from,
            to,
        } => View::Atom(Atom::Window {
            channel,
            shift,
            from,
            to,
        }),
        Part::Pinned { channel, shift } => View::Atom(Atom::Pinned { channel, shift }),
    }
}

// A term's channel is below `v`, and its shift is -4 to 4.
fn term_fits(x: Term, v: usize) -> bool
    ensures { result ≡ term_fits v x }
{
    match x {
        Term::Constant(_) => true,
        Term::Reading { channel, shift } => {
            if v <= channel {
                return false;
            }
            if shift < -4 {
                return false;
            }
            shift <= 4
        }
    }
}

// The two ends of a window are minutes of the week, and differ.
pub fn window_fits(from: usize, to: usize) -> bool
    ensures { result ≡ window_fits from to }
{
    ((from < WEEK) & (to < WEEK)) & !(from == to)
}

// The terms of an atom fit `v` channels, and so do the ends of a window the week.
fn atom_fits(x: Atom, v: usize) -> bool
    ensures { result ≡ atom_fits v x }
{
    match x {
        Atom::Less(left, right) => term_fits(left, v) & term_fits(right, v),
        Atom::Equal(left, right) => term_fits(left, v) & term_fits(right, v),
        Atom::Window {
            channel,
            shift,
            from,
            to,
        } => term_fits(Term::Reading { channel, shift }, v) & window_fits(from, to),
        Atom::Pinned { channel, shift } => term_fits(Term::Reading { channel, shift }, v),
    }
}

// The parts that an operator names are lower than `n`.
fn names_lower(x: Operator, n: usize) -> bool
    ensures { result ≡ names_lower n x }
{
    match x {
        Operator::One(_, a) => a < n,
        Operator::Two(_, a, b) => (a < n) & (b < n),
    }
}

// Part `n`: its terms fit `v` channels, and it names lower parts.
pub fn view_fits(x: View, v: usize, n: usize) -> bool
    ensures { result ≡ view_fits v n x }
{
    match x {
        View::Atom(atom) => atom_fits(atom, v),
        View::Operator(operator) => names_lower(operator, n),
    }
}
