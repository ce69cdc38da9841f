//! Operators between operands, and which bind tighter.

ghost use Rattle.std.specs.Prelude.{◌≡◌, ◌+◌, IfErr, IfOk, reverse};
ghost use Rattle.rust_source.specs.Operators.{all_joined, is_comparison, joined, joined_tighter, last_binds, last_compares, next_operator, of_one, operands_of, operator_put, pair_in, pairs, with_operators, stands_beside, tightness};
ghost use Rattle.rust_source.specs.Syntax.{expr_of, unary};
ghost use Rattle.rust_source.specs.Tokens.{Yields};

use crate::fault::{SourceFault, SourceFaultKind};
use crate::place::Place;
use crate::reader::cursor::{Cursor, fault, is_pair, next_kind};
use crate::syntax::{Binary, Expr, Unary};
use crate::tokens::token::TokenKind;
use std::alloc::Global;

/// How many operators there are of two characters.
const PAIRS: usize = 8;

/// The operators of two characters.
static TWO: [(u8, u8, Binary); PAIRS] = [
    (b'<', b'<', Binary::Shl),
    (b'>', b'>', Binary::Shr),
    (b'=', b'=', Binary::Equal),
    (b'!', b'=', Binary::NotEqual),
    (b'<', b'=', Binary::LessOrEqual),
    (b'>', b'=', Binary::GreaterOrEqual),
    (b'&', b'&', Binary::And),
    (b'|', b'|', Binary::Or),
];

/// The operator of one character.
fn of_one(character: u8) -> Option<Binary>
    ensures { result ≡ of_one character }
{
    match character {
        b'+' => Some(Binary::Add),
        b'-' => Some(Binary::Sub),
        b'*' => Some(Binary::Mul),
        b'/' => Some(Binary::Div),
        b'%' => Some(Binary::Rem),
        b'&' => Some(Binary::BitAnd),
        b'|' => Some(Binary::BitOr),
        b'^' => Some(Binary::BitXor),
        b'<' => Some(Binary::Less),
        b'>' => Some(Binary::Greater),
        _ => None,
    }
}

/// The first operator of a table that the next two tokens are.
fn pair_in(table: &[(u8, u8, Binary)], cursor: &Cursor<'_>) -> Option<Binary>
    ensures { result ≡ pair_in table.now cursor.now }
{
    for (first, second, operator) in table {
        if is_pair(cursor, *first, *second) {
            return Some(*operator);
        }
    }
    None
}

/// The operator of two characters that is next.
fn next_pair(cursor: &Cursor<'_>) -> Option<Binary>
    ensures { result ≡ pair_in pairs cursor.now }
{
    pair_in(&TWO, cursor)
}

/// The operator that is next, and how many tokens it has.
#[tactic(auto, unfolding(crate::specs::Operators::next_operator))]
pub(crate) fn next_operator(cursor: &Cursor<'_>) -> Option<(Binary, usize)>
    ensures { result ≡ next_operator cursor.now }
{
    if let Some(operator) = next_pair(cursor) {
        return Some((operator, 2));
    }
    match next_kind(cursor) {
        Some(TokenKind::Punct(character)) => Some((of_one(character)?, 1)),
        _ => None,
    }
}

/// How tight an operator binds: the greater the tighter.
fn tightness(operator: Binary) -> u8
    ensures { result ≡ tightness operator }
{
    match operator {
        Binary::Mul | Binary::Div | Binary::Rem => 8,
        Binary::Add | Binary::Sub => 7,
        Binary::Shl | Binary::Shr => 6,
        Binary::BitAnd => 5,
        Binary::BitXor => 4,
        Binary::BitOr => 3,
        Binary::Equal
        | Binary::NotEqual
        | Binary::Less
        | Binary::LessOrEqual
        | Binary::Greater
        | Binary::GreaterOrEqual => 2,
        Binary::And => 1,
        Binary::Or => 0,
    }
}

/// Whether an operator is a comparison, which stands beside no other one without parentheses.
fn is_comparison(operator: Binary) -> bool
    ensures { result ≡ is_comparison operator }
{
    tightness(operator) == 2
}

/// An operator that waits for its right operand, and where it stands.
#[derive(Clone, Copy)]
pub(crate) struct Waiting {
    pub operator: Binary,
    pub at: Place,
}

/// Joins the last two operands by the operator between them.
fn join(alloc: Global, operands: &mut Vec<Expr>, by: Waiting) -> Result<(), SourceFault>
    ensures ok { IfOk result
        (λ _. operands_of operands.new.items ≡ joined (operands_of operands.old.items) by) }
    ensures err { IfErr result (λ fault. fault.kind ≡ SourceFaultKind.OutOfMemory) }
{
    let Some(right) = operands.pop() else {
        return Ok(());
    };
    let Some(left) = operands.pop() else {
        return Ok(());
    };
    let left = Box::new(alloc, left)?;
    let right = Box::new(alloc, right)?;
    operands.push(Expr::Binary(by.operator, left, right, by.at))?;
    Ok(())
}

/// Whether the last of the operators that wait binds at least as tight as `least`.
fn last_binds(waiting: &Vec<Waiting>, least: u8) -> bool
    ensures { result ≡ last_binds least (reverse waiting.now.items) }
{
    match waiting.last() {
        Some(by) => tightness(by.operator) >= least,
        None => false,
    }
}

/// Whether the last of the operators that wait is a comparison.
fn last_compares(waiting: &Vec<Waiting>) -> bool
    ensures { result ≡ last_compares (reverse waiting.now.items) }
{
    match waiting.last() {
        Some(by) => is_comparison(by.operator),
        None => false,
    }
}

/// Joins the operands whose operators bind at least as tight as `least`.
#[tactic(auto, using(crate::proofs::Operators::none_tighter, crate::proofs::Operators::one_tighter))]
fn join_tighter(
    alloc: Global,
    operands: &mut Vec<Expr>,
    waiting: &mut Vec<Waiting>,
    least: u8,
) -> Result<(), SourceFault>
    ensures ok { IfOk result (λ _. (operands_of operands.new.items, reverse waiting.new.items)
        ≡ joined_tighter least (operands_of operands.old.items) (reverse waiting.old.items)) }
    ensures err { IfErr result (λ fault. fault.kind ≡ SourceFaultKind.OutOfMemory) }
{
    'joining: while last_binds(waiting, least) {
        if let Some(by) = waiting.pop() {
            join(alloc, operands, by)?;
        }
    }
    Ok(())
}

/// Whether an operator would make two comparisons stand side by side. What binds tighter is joined before.
#[tactic(auto, using(crate::proofs::Operators::tighter_twice))]
fn is_beside(
    alloc: Global,
    operands: &mut Vec<Expr>,
    waiting: &mut Vec<Waiting>,
    by: Binary,
) -> Result<bool, SourceFault>
    ensures ok { IfOk result
        (λ beside. beside ≡ stands_beside by (operands_of operands.old.items) (reverse waiting.old.items)) }
    ensures same { IfOk result (λ _. joined_tighter (tightness by) (operands_of operands.new.items) (reverse waiting.new.items)
        ≡ joined_tighter (tightness by) (operands_of operands.old.items) (reverse waiting.old.items)) }
    ensures err { IfErr result (λ fault. fault.kind ≡ SourceFaultKind.OutOfMemory) }
{
    if !is_comparison(by) {
        return Ok(false);
    }
    join_tighter(alloc, operands, waiting, tightness(by) + 1)?;
    Ok(last_compares(waiting))
}

/// Puts an operator behind the operands, once those before it that bind as tight are joined. Two comparisons side by
/// side are no expression.
#[tactic(auto, unfolding(crate::specs::Operators::operator_put))]
pub(crate) fn put_operator(
    alloc: Global,
    cursor: &Cursor<'_>,
    operands: &mut Vec<Expr>,
    waiting: &mut Vec<Waiting>,
    by: Waiting,
) -> Result<(), SourceFault>
    ensures { Yields (λ _. (operands_of operands.new.items, reverse waiting.new.items))
        (operator_put cursor.now (operands_of operands.old.items) (reverse waiting.old.items) by) result }
{
    if is_beside(alloc, operands, waiting, by.operator)? {
        return Err(fault(cursor, SourceFaultKind::ExpectedExpression));
    }
    join_tighter(alloc, operands, waiting, tightness(by.operator))?;
    waiting.push(by)?;
    Ok(())
}

/// The expression that the operands and the operators between them make.
#[tactic(auto, unfolding(crate::specs::Operators::all_joined))]
pub(crate) fn join_all(
    alloc: Global,
    cursor: &Cursor<'_>,
    operands: Vec<Expr>,
    waiting: Vec<Waiting>,
) -> Result<Expr, SourceFault>
    ensures { Yields expr_of
        (all_joined cursor.now (operands_of operands.items) (reverse waiting.items)) result }
{
    let mut operands = operands;
    let mut waiting = waiting;
    join_tighter(alloc, &mut operands, &mut waiting, 0)?;
    match operands.pop() {
        Some(whole) => Ok(whole),
        None => Err(fault(cursor, SourceFaultKind::ExpectedExpression)),
    }
}

/// The operand with an operator before it.
fn with_sign(alloc: Global, operand: Expr, sign: Unary, at: Place) -> Result<Expr, SourceFault>
    ensures ok { IfOk result (λ whole. expr_of whole ≡ unary sign (expr_of operand) at) }
    ensures err { IfErr result (λ fault. fault.kind ≡ SourceFaultKind.OutOfMemory) }
{
    Ok(Expr::Unary(sign, Box::new(alloc, operand)?, at))
}

/// The operand with the operators before it, of which the last is the nearest.
#[tactic(auto, using(crate::proofs::Operators::signed_last))]
pub(crate) fn with_signs(
    alloc: Global,
    operand: Expr,
    signs: Vec<(Unary, Place)>,
) -> Result<Expr, SourceFault>
    ensures ok { IfOk result
        (λ whole. expr_of whole ≡ with_operators (expr_of operand) signs.items) }
    ensures err { IfErr result (λ fault. fault.kind ≡ SourceFaultKind.OutOfMemory) }
{
    let mut signs = signs;
    let mut operand = operand;
    while let Some((sign, at)) = signs.pop() {
        operand = with_sign(alloc, operand, sign, at)?;
    }
    Ok(operand)
}
