//! The levels of the grammar, and the operators of each.

ghost use Rattle.std.specs.Prelude.{◌≡◌};
ghost use Rattle.doll_expr.specs.Levels as spec;

use crate::expr::Op;
use crate::token::Mark;

/// The operators with two sides, by how tightly they bind, the loosest first. `Unary` is what stands between them.
#[derive(Clone, Copy, PartialEq, Eq)]
pub enum Level {
    Or,
    And,
    Equality,
    Order,
    Sum,
    Product,
    Unary,
}

/// What may stand before an operand.
#[derive(Clone, Copy, PartialEq, Eq)]
pub enum Sign {
    Not,
    Minus,
}

/// The level of the operands of a level's operators.
pub fn tighter(level: Level) -> Option<Level>
    ensures { result ≡ spec.tighter level }
{
    match level {
        Level::Or => Some(Level::And),
        Level::And => Some(Level::Equality),
        Level::Equality => Some(Level::Order),
        Level::Order => Some(Level::Sum),
        Level::Sum => Some(Level::Product),
        Level::Product => Some(Level::Unary),
        Level::Unary => None,
    }
}

/// Whether a level's operators may follow each other, grouped to the left.
pub fn repeats(level: Level) -> bool
    ensures { result ≡ spec.repeats level }
{
    match level {
        Level::Equality | Level::Order => false,
        _ => true,
    }
}

/// The operator of a level that a mark is.
pub fn operator_of(level: Level, mark: Mark) -> Option<Op>
    ensures { result ≡ spec.between level mark }
{
    match (level, mark) {
        (Level::Or, Mark::Or) => Some(Op::Or),
        (Level::And, Mark::And) => Some(Op::And),
        (Level::Equality, Mark::Equal) => Some(Op::Eq),
        (Level::Equality, Mark::NotEqual) => Some(Op::Ne),
        (Level::Order, Mark::Less) => Some(Op::Lt),
        (Level::Order, Mark::LessOrEqual) => Some(Op::Le),
        (Level::Order, Mark::Greater) => Some(Op::Gt),
        (Level::Order, Mark::GreaterOrEqual) => Some(Op::Ge),
        (Level::Sum, Mark::Plus) => Some(Op::Add),
        (Level::Sum, Mark::Minus) => Some(Op::Sub),
        (Level::Product, Mark::Times) => Some(Op::Mul),
        _ => None,
    }
}
