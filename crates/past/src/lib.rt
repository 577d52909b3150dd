// Parts that look at a later row: X, U, R, or a shift above 0.
#![tactic(auto)]

ghost use Rattle.std.specs.Prelude.{◌≡◌};
ghost use Rattle.past.specs.Ahead.{shift_ahead, term_ahead, atom_ahead, operator_ahead, unary_ahead, binary_ahead, view_ahead};

use cltlb::{Atom, Binary, Operator, Term, Unary, View};

fn shift_ahead(shift: i32) -> bool
    ensures { result ≡ shift_ahead shift }
{
    0 < shift
}

fn term_ahead(x: Term) -> bool
    ensures { result ≡ term_ahead x }
{
    match x {
        Term::Constant(_) => false,
        Term::Reading { channel: _, shift } => shift_ahead(shift),
    }
}

fn atom_ahead(x: Atom) -> bool
    ensures { result ≡ atom_ahead x }
{
    match x {
        Atom::Less(left, right) => term_ahead(left) | term_ahead(right),
        Atom::Equal(left, right) => term_ahead(left) | term_ahead(right),
        Atom::Window {
            channel: _,
            shift,
            from: _,
            to: _,
        } => shift_ahead(shift),
        Atom::Pinned { channel: _, shift } => shift_ahead(shift),
    }
}

fn unary_ahead(x: Unary) -> bool
    ensures { result ≡ unary_ahead x }
{
    match x {
        Unary::Not => false,
        Unary::Next => true,
        Unary::Yesterday => false,
        Unary::WeakYesterday => false,
    }
}

fn binary_ahead(x: Binary) -> bool
    ensures { result ≡ binary_ahead x }
{
    match x {
        Binary::And => false,
        Binary::Or => false,
        Binary::Until => true,
        Binary::Release => true,
        Binary::Since => false,
        Binary::Trigger => false,
    }
}

fn operator_ahead(x: Operator) -> bool
    ensures { result ≡ operator_ahead x }
{
    match x {
        Operator::One(o, _) => unary_ahead(o),
        Operator::Two(o, _, _) => binary_ahead(o),
    }
}

pub fn view_ahead(view: View) -> bool
    ensures { result ≡ view_ahead view }
{
    match view {
        View::Atom(atom) => atom_ahead(atom),
        View::Operator(operator) => operator_ahead(operator),
    }
}
