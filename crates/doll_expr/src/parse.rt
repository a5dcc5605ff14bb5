//! Reads a text as an expression.

ghost use Rattle.std.specs.Prelude.{◌≤◌, length, Ok, IfOk};
ghost use Rattle.doll_expr.specs.declared.expr.Expr.{Expr};
ghost use Rattle.doll_expr.specs.Faults.{Faults};
ghost use Rattle.doll_text.specs.Gives.{Gives};
ghost use Rattle.doll_expr.specs.Grammar.{IsExpr, OneTree};
ghost use Rattle.doll_expr.specs.Reading.{expr_of};
ghost use Rattle.doll_expr.specs.Tokens.{tokens_of};

use crate::expr::{Expr, ExprFault};
use crate::lex::{LONGEST_SOURCE, tokens_of};
use crate::read::whole_expr;
use std::alloc::Global;

/// The tree of an expression, or the first fault of the text.
pub fn parse_expr(alloc: Global, text: &str) -> Result<Expr, ExprFault>
    requires { length text.now ≤ LONGEST_SOURCE }
    // What is accepted is a sentence of the grammar with this tree.
    ensures found { IfOk result (λ e. IsExpr text.now e) }
    // Each sentence of the grammar is accepted with its tree, unless memory runs out.
    ensures only { (e : Expr) → IsExpr text.now e → Gives ExprFault.Memory (Ok e) result }
    // A fault is that of the first token with which no sentence goes on, unless memory ran out.
    ensures fault { Faults (tokens_of text.now) result }
    // The same as one equation: what reading from the left gives.
    ensures exact { Gives ExprFault.Memory (expr_of text.now) result }
{
    parse_expr_bytes(alloc, text.as_bytes())
}

/// The tree of an expression in bytes, or their first fault.
pub fn parse_expr_bytes(alloc: Global, bytes: &[u8]) -> Result<Expr, ExprFault>
    requires { length bytes.now ≤ LONGEST_SOURCE }
    ensures found { IfOk result (λ e. IsExpr bytes.now e) }
    ensures only { (e : Expr) → IsExpr bytes.now e → Gives ExprFault.Memory (Ok e) result }
    ensures fault { Faults (tokens_of bytes.now) result }
    ensures exact { Gives ExprFault.Memory (expr_of bytes.now) result }
{
    read_bytes(alloc, bytes)
}

#[tactic(auto, unfolding(crate::specs::Reading::expr_of))]
fn read_bytes(alloc: Global, bytes: &[u8]) -> Result<Expr, ExprFault>
    requires { length bytes.now ≤ LONGEST_SOURCE }
    ensures { Gives ExprFault.Memory (expr_of bytes.now) result }
{
    let tokens = tokens_of(alloc, bytes)?;
    whole_expr(alloc, tokens.as_slice())
}

/// No text has two trees.
pub fn one_tree()
    ensures { OneTree }
{}
