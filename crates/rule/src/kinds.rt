// The kind byte of a part, and a part off its kind byte and the bytes of its operand.
ghost use Rattle.std.specs.Prelude.{◌≡◌, ◌+◌, ◌≤◌, length};
ghost use Rattle.rule.specs.Kinds.{kind_of, shape_of, is_unknown, part_of};
ghost use Rattle.rule.specs.Operands.{operand_at};
ghost use Rattle.rule.specs.inner.Sound.{IsPart};

use crate::operands::{Operand, Shape};
use cltlb::{Part, Term};

// A kind stays a number: an enum of fourteen kinds beside the fourteen parts would say each of them once more.
pub fn kind_of(part: Part) -> u8
    ensures { result ≡ kind_of part }
{
    match part {
        Part::Less(_, _) => 1,
        Part::Equal(_, _) => 2,
        Part::Not(_) => 3,
        Part::And(_, _) => 4,
        Part::Or(_, _) => 5,
        Part::Next(_) => 6,
        Part::Until(_, _) => 7,
        Part::Release(_, _) => 8,
        Part::Yesterday(_) => 9,
        Part::WeakYesterday(_) => 10,
        Part::Since(_, _) => 11,
        Part::Trigger(_, _) => 12,
        Part::Window { .. } => 13,
        Part::Pinned { .. } => 14,
    }
}

// Which operand a kind byte asks for.
#[tactic(auto, unfolding(crate::specs::Kinds::shape_of))]
pub fn shape_of(kind: u8) -> Shape
    ensures { result ≡ shape_of kind }
{
    match kind {
        1 => Shape::Comparison,
        2 => Shape::Comparison,
        3 => Shape::NamesOne,
        4 => Shape::NamesTwo,
        5 => Shape::NamesTwo,
        6 => Shape::NamesOne,
        7 => Shape::NamesTwo,
        8 => Shape::NamesTwo,
        9 => Shape::NamesOne,
        10 => Shape::NamesOne,
        11 => Shape::NamesTwo,
        12 => Shape::NamesTwo,
        13 => Shape::Window,
        14 => Shape::Pinned,
        _ => Shape::Unknown,
    }
}

pub fn is_unknown(shape: Shape) -> bool
    ensures { result ≡ is_unknown shape }
{
    match shape {
        Shape::Comparison => false,
        Shape::NamesOne => false,
        Shape::NamesTwo => false,
        Shape::Window => false,
        Shape::Pinned => false,
        Shape::Unknown => true,
    }
}

// The part of a kind: of those that compare two terms, that name one part, that name two.
#[tactic(auto, unfolding(crate::specs::Kinds::part_of))]
fn atom_part(kind: u8, x: Term, y: Term) -> Part
    ensures { result ≡ part_of kind (Operand.Terms x y) }
{
    if kind == 1 {
        Part::Less(x, y)
    } else {
        Part::Equal(x, y)
    }
}

#[tactic(auto, unfolding(crate::specs::Kinds::part_of))]
pub fn one_part(kind: u8, a: usize) -> Part
    ensures { result ≡ part_of kind (Operand.One a) }
{
    match kind {
        3 => Part::Not(a),
        6 => Part::Next(a),
        9 => Part::Yesterday(a),
        _ => Part::WeakYesterday(a),
    }
}

#[tactic(auto, unfolding(crate::specs::Kinds::part_of))]
pub fn two_part(kind: u8, a: usize, b: usize) -> Part
    ensures { result ≡ part_of kind (Operand.Two a b) }
{
    match kind {
        4 => Part::And(a, b),
        5 => Part::Or(a, b),
        7 => Part::Until(a, b),
        8 => Part::Release(a, b),
        11 => Part::Since(a, b),
        _ => Part::Trigger(a, b),
    }
}

// The part of a kind, off twelve bytes from `at` on that are known to be an operand of the kind's shape.
pub fn part_on(s: &[u8], at: usize, kind: u8, shape: Shape) -> Part
    requires { at + 12 ≤ length s.now }
    ensures { IsPart kind (operand_at shape s.now at) result }
{
    match shape {
        Shape::Comparison => {
            atom_part(
                kind,
                crate::terms::term_on(s, at),
                crate::terms::term_on(s, at + 6),
            )
        }
        Shape::NamesOne => one_part(kind, fields::u16_at(s, at)),
        Shape::NamesTwo => two_part(kind, fields::u16_at(s, at), fields::u16_at(s, at + 2)),
        Shape::Window => Part::Window {
            channel: crate::terms::channel_on(s, at),
            shift: crate::terms::shift_on(s, at),
            from: fields::u16_at(s, at + 6),
            to: fields::u16_at(s, at + 8),
        },
        Shape::Pinned => Part::Pinned {
            channel: crate::terms::channel_on(s, at),
            shift: crate::terms::shift_on(s, at),
        },
        // Nothing is an operand of this shape, so any part will do.
        Shape::Unknown => Part::Not(0),
    }
}
