//! What operators and questions give.

ghost use Rattle.std.specs.Prelude.{◌≡◌, ◌++◌, not, pos, false, IfOk};
ghost use Rattle.std.specs.Option.{option_map_or};
ghost use Rattle.std.specs.Ordering.{is_lt, is_le, is_gt, is_ge};
ghost use Rattle.doll_table.specs.Tables.{TableMap};
ghost use Rattle.doll_eval.specs.Living.{IsLiving};
ghost use Rattle.doll_eval.specs.Operations as of;

use doll_expr::{Memory, Op, Query, Text};
use doll_schema::{Val, Value};
use std::alloc::Global;
use std::cmp::Ordering;

/// The answer to a question.
pub fn ask(query: Query, value: Val) -> Val
    ensures { result ≡ of.asked query value }
{
    match query {
        Query::Size => size(&value),
        Query::Empty => match size_of(&value) {
            Some(n) => truth(n == 0),
            None => nil(),
        },
        Query::Any => match size_of(&value) {
            Some(n) => truth(n != 0),
            None => nil(),
        },
        Query::IsNil => truth(is_nil(&value)),
    }
}

/// Whether a value holds in a test: all but nil and false.
pub fn is_true(value: &Val) -> bool
    ensures { result ≡ of.is_true value.now }
{
    match value {
        Val::Plain(Value::Nil) => false,
        Val::Plain(Value::Bool(held)) => *held,
        _ => true,
    }
}

/// The number with its sign changed.
#[tactic(auto, using(crate::proofs::Parts::whole_fits))]
pub fn negate(value: Val) -> Val
    ensures { result ≡ of.negated value }
{
    match value {
        Val::Plain(Value::Int(n)) => whole_if(n.checked_neg()),
        _ => nil(),
    }
}

/// Whether the left side of an operator is its answer.
pub fn is_settled(op: Op, left: &Val) -> bool
    ensures { result ≡ of.is_settled op left.now }
{
    match op {
        Op::Or => is_true(left),
        Op::And => !is_true(left),
        _ => false,
    }
}

/// What an operator gives of both sides.
pub fn operate(alloc: Global, op: Op, left: Val, right: Val) -> Result<Val, Memory>
    ensures value { IfOk result (λ v. v ≡ of.operated op left right) }
    ensures living { (table : TableMap) → IsLiving table right → IfOk result
        (λ v. IsLiving table v) }
{
    match op {
        Op::Or | Op::And => Ok(right),
        Op::Eq => Ok(truth(same(&left, &right))),
        Op::Ne => Ok(truth(!same(&left, &right))),
        Op::Lt => Ok(truth(is_below(&left, &right))),
        Op::Le => Ok(truth(is_at_most(&left, &right))),
        Op::Gt => Ok(truth(is_above(&left, &right))),
        Op::Ge => Ok(truth(is_at_least(&left, &right))),
        Op::Add => add(alloc, &left, &right),
        Op::Sub => Ok(subtract(&left, &right)),
        Op::Mul => Ok(multiply(&left, &right)),
    }
}

/// The opposite of a value in a test: true of nil and false, and false of all else.
pub fn not(value: Val) -> Val
    ensures { result ≡ of.truth (not (of.is_true value)) }
{
    truth(!is_true(&value))
}

pub fn nil() -> Val
    ensures { result ≡ of.nil }
{
    Val::Plain(Value::Nil)
}

pub fn truth(held: bool) -> Val
    ensures { result ≡ of.truth held }
{
    Val::Plain(Value::Bool(held))
}

/// A number, nil where there is none since it would have more than 64 bits.
fn whole_if(number: Option<i64>) -> Val
    ensures { result ≡ of.whole_if number }
{
    match number {
        Some(n) => Val::Plain(Value::Int(n)),
        None => nil(),
    }
}

/// A number of 64 bits without a sign, nil where it has no place among those with one.
pub fn whole(number: u64) -> Val
    ensures { result ≡ of.whole (pos number) }
{
    match i64::try_from(number) {
        Ok(n) => Val::Plain(Value::Int(n)),
        Err(_) => nil(),
    }
}

fn is_nil(value: &Val) -> bool
    ensures { result ≡ of.is_nil value.now }
{
    matches!(value, Val::Plain(Value::Nil))
}

fn size_of(value: &Val) -> Option<usize>
    ensures { result ≡ of.size_of value.now }
{
    match value {
        Val::List { ids, .. } => Some(ids.as_slice().len()),
        Val::Plain(Value::Nil) => Some(0),
        _ => None,
    }
}

fn size(value: &Val) -> Val
    ensures { result ≡ of.asked Query.Size value.now }
{
    match size_of(value) {
        Some(n) => whole(n as u64),
        None => nil(),
    }
}

fn same(left: &Val, right: &Val) -> bool
    ensures { result ≡ of.same left.now right.now }
{
    match (left, right) {
        (Val::Plain(a), Val::Plain(b)) => same_value(a, b),
        (Val::Record { model: m, id: i }, Val::Record { model: n, id: j }) => *m == *n && *i == *j,
        (Val::List { ids: a, .. }, Val::List { ids: b, .. }) => a.as_slice() == b.as_slice(),
        _ => false,
    }
}

fn same_value(left: &Value, right: &Value) -> bool
    ensures { result ≡ of.same_value left.now right.now }
{
    match (left, right) {
        (Value::Nil, Value::Nil) => true,
        (Value::Bool(a), Value::Bool(b)) => *a == *b,
        (Value::Int(a), Value::Int(b)) => *a == *b,
        (Value::Text(a), Value::Text(b)) => a.as_bytes() == b.as_bytes(),
        _ => false,
    }
}

fn compared(left: &Val, right: &Val) -> Option<Ordering>
    ensures { result ≡ of.compared left.now right.now }
{
    match (left, right) {
        (Val::Plain(Value::Int(a)), Val::Plain(Value::Int(b))) => Some(a.cmp(b)),
        (Val::Plain(Value::Text(a)), Val::Plain(Value::Text(b))) => {
            Some(a.as_bytes().cmp(b.as_bytes()))
        }
        _ => None,
    }
}

fn is_below(left: &Val, right: &Val) -> bool
    ensures { result ≡ option_map_or is_lt (of.compared left.now right.now) false }
{
    match compared(left, right) {
        Some(order) => order.is_lt(),
        None => false,
    }
}

fn is_at_most(left: &Val, right: &Val) -> bool
    ensures { result ≡ option_map_or is_le (of.compared left.now right.now) false }
{
    match compared(left, right) {
        Some(order) => order.is_le(),
        None => false,
    }
}

fn is_above(left: &Val, right: &Val) -> bool
    ensures { result ≡ option_map_or is_gt (of.compared left.now right.now) false }
{
    match compared(left, right) {
        Some(order) => order.is_gt(),
        None => false,
    }
}

fn is_at_least(left: &Val, right: &Val) -> bool
    ensures { result ≡ option_map_or is_ge (of.compared left.now right.now) false }
{
    match compared(left, right) {
        Some(order) => order.is_ge(),
        None => false,
    }
}

#[tactic(auto, using(crate::proofs::Parts::whole_fits))]
fn subtract(left: &Val, right: &Val) -> Val
    ensures { result ≡ of.subtracted left.now right.now }
{
    match (left, right) {
        (Val::Plain(Value::Int(a)), Val::Plain(Value::Int(b))) => whole_if(a.checked_sub(*b)),
        _ => nil(),
    }
}

#[tactic(auto, using(crate::proofs::Parts::whole_fits))]
fn multiply(left: &Val, right: &Val) -> Val
    ensures { result ≡ of.multiplied left.now right.now }
{
    match (left, right) {
        (Val::Plain(Value::Int(a)), Val::Plain(Value::Int(b))) => whole_if(a.checked_mul(*b)),
        _ => nil(),
    }
}

#[tactic(auto, using(crate::proofs::Parts::whole_fits))]
fn add(alloc: Global, left: &Val, right: &Val) -> Result<Val, Memory>
    ensures { IfOk result (λ v. v ≡ of.added left.now right.now) }
{
    match (left, right) {
        (Val::Plain(Value::Int(a)), Val::Plain(Value::Int(b))) => Ok(whole_if(a.checked_add(*b))),
        (Val::Plain(Value::Text(a)), Val::Plain(Value::Text(b))) => {
            let text = join(alloc, a.as_bytes(), b.as_bytes())?;
            Ok(Val::Plain(Value::Text(text)))
        }
        _ => Ok(nil()),
    }
}

fn join(alloc: Global, left: &[u8], right: &[u8]) -> Result<Text, Memory>
    ensures { IfOk result (λ t. t ≡ left.now ++ right.now) }
{
    let mut bytes = Vec::from_slice(alloc, left)?;
    bytes.extend_from_slice(right)?;
    Ok(Text::from_vec(bytes))
}
