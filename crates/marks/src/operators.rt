// What an operator makes of marks: which row it looks at beside its own, and the mark that it asks for.
ghost use Rattle.std.specs.Prelude.{◌≡◌};
ghost use Rattle.marks.specs.Equations as equations;
ghost use Rattle.marks.specs.Equations.{beside_one, beside_two, beside_of, mark_one, mark_two};

use cltlb::{Binary, Operator, Unary};

// The row that an operator looks at beside its own: the row after, which is P after row W - 1, or the row before; what counts
// as the mark before row 0 is held.
#[derive(Clone, Copy)]
pub enum Beside {
    After,
    Before(bool),
}

// Apart from `beside_two`, as the definitions are: each is over the operators of one enum.
fn beside_one(operator: Unary) -> Beside
    ensures { result ≡ beside_one operator }
{
    match operator {
        Unary::Not | Unary::Next => Beside::After,
        Unary::Yesterday => Beside::Before(false),
        Unary::WeakYesterday => Beside::Before(true),
    }
}

fn beside_two(operator: Binary) -> Beside
    ensures { result ≡ beside_two operator }
{
    match operator {
        Binary::And | Binary::Or | Binary::Until | Binary::Release => Beside::After,
        Binary::Since => Beside::Before(false),
        Binary::Trigger => Beside::Before(true),
    }
}

pub fn beside_of(operator: Operator) -> Beside
    ensures { result ≡ beside_of operator }
{
    match operator {
        Operator::One(sort, _) => beside_one(sort),
        Operator::Two(sort, _, _) => beside_two(sort),
    }
}

// The part at whose mark on the row beside part `i` looks: the one that it names, or itself.
pub fn watched(operator: Operator, i: usize) -> usize
    ensures { result ≡ equations.watched operator i }
{
    match operator {
        Operator::One(_, a) => a,
        Operator::Two(_, _, _) => i,
    }
}

// The mark of an operator over one part, by the part's mark on the row and beside it.
pub fn mark_one(operator: Unary, a: bool, beside: bool) -> bool
    ensures { result ≡ mark_one operator a beside }
{
    match operator {
        Unary::Not => !a,
        Unary::Next | Unary::Yesterday | Unary::WeakYesterday => beside,
    }
}

// The mark of an operator over two parts, by their marks on the row and its own beside it.
pub fn mark_two(operator: Binary, a: bool, b: bool, beside: bool) -> bool
    ensures { result ≡ mark_two operator a b beside }
{
    match operator {
        Binary::And => a & b,
        Binary::Or => a | b,
        Binary::Until | Binary::Since => b | (a & beside),
        Binary::Release | Binary::Trigger => b & (a | beside),
    }
}
