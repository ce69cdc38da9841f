//! Expressions that constants are.

ghost use Rattle.std.specs.Prelude.{◌≡◌, [], ◌∷◌, ◌++◌, drop, IfErr, IfOk, map};
ghost use Rattle.rust_source.specs.Names.{texts};
ghost use Rattle.rust_source.specs.Operators.{operands_of};
ghost use Rattle.rust_source.specs.Cursor.{next_kind, token_text};
ghost use Rattle.rust_source.specs.Literals.{char_code, number_written};
ghost use Rattle.rust_source.specs.Reading.{Reads, read_as};
ghost use Rattle.rust_source.specs.Simple.{byte_read, char_read, is_literal, literal_read, literal_of, most_nested, number_read, sign_of, signed_literal, signs, text_read};
ghost use Rattle.rust_source.specs.Syntax.{cast, choice, expr_of, method, method_path, no_arguments, path_as_read, segment, segment_of, type_of};
ghost use Rattle.rust_source.specs.Terms.{bracketed, cast_from, choice_behind, choice_read, choice_with, else_read, expr_read, expr_with, called, held_by, is_method_next, method_read, methods_from, readers, is_always_reported, operand, primary, value, expressions_in, whole};
ghost use Rattle.rust_source.specs.Texts.{text_length};
ghost use Rattle.rust_source.specs.Tokens.{Yields};

use crate::fault::{SourceFault, SourceFaultKind};
use crate::names::Names;
use crate::place::{Place, Symbol};
use crate::reader::blocks::read_block;
use crate::reader::cfg_calls::{is_cfg_call, read_cfg_call};
use crate::reader::cursor::{
    Cursor, expect_comma, fault, is_done, is_group, is_named_next, is_next, next_kind, nth, pass,
    place, take_group, take_word, text_of,
};
use crate::reader::depth::{most_nested, one_level_deeper};
use crate::reader::literals::{Number, char_code, number_of};
use crate::reader::matches::read_match;
use crate::reader::naming::take_name;
use crate::reader::operators::{Waiting, join_all, next_operator, put_operator, with_signs};
use crate::reader::paths::read_value_path;
use crate::reader::texts::text_length;
use crate::reader::types::read_type;
use crate::syntax::{Expr, IntegerKind, Path, Segment, Type, Unary, Unevaluated};
use crate::tokens::bytes_after;
use crate::tokens::keyword::Keyword;
use crate::tokens::token::{Bracket, Token, TokenKind};
use std::alloc::Global;

/// Whether a fault is reported even where an expression needn't be read.
fn is_always_reported(kind: SourceFaultKind) -> bool
    ensures { result ≡ is_always_reported kind }
{
    match kind {
        SourceFaultKind::OutOfMemory | SourceFaultKind::TooDeep | SourceFaultKind::BadNumber => {
            true
        }
        _ => false,
    }
}

/// The expression that all tokens that are left make. One that isn't read is `Unevaluated`; they are passed over.
#[cycle(terms)]
#[tactic(auto, unfolding(crate::specs::Terms::whole))]
pub(crate) fn read_whole(
    names: &mut Names,
    cursor: &mut Cursor<'_>,
    depth_left: u32,
) -> Result<Expr, SourceFault>
    ensures { Reads (λ value. (expr_of value, cursor.new))
        (whole (readers depth_left) cursor.old (texts names.old)) (texts names.new) result }
{
    if is_done(cursor) {
        return Err(fault(cursor, SourceFaultKind::ExpectedExpression));
    }
    let at = place(cursor);
    let mut inside = *cursor;
    let read = read_expression(names, &mut inside, depth_left);
    cursor.at = cursor.end;
    match read {
        Ok(whole) => {
            if is_done(&inside) {
                Ok(whole)
            } else {
                Ok(Expr::Unevaluated(Unevaluated::Expression, at))
            }
        }
        Err(fault) => {
            if is_always_reported(fault.kind) {
                Err(fault)
            } else {
                Ok(Expr::Unevaluated(Unevaluated::Expression, at))
            }
        }
    }
}

/// An expression. Types and expressions may stand in `depth_left` others here.
#[cycle(terms)]
#[tactic(auto, using(crate::proofs::Depths::expr_less, crate::proofs::Depths::expr_none))]
pub(crate) fn read_expression(
    names: &mut Names,
    cursor: &mut Cursor<'_>,
    depth_left: u32,
) -> Result<Expr, SourceFault>
    ensures { Reads (λ value. (expr_of value, cursor.new))
        (expr_read depth_left cursor.old (texts names.old)) (texts names.new) result }
{
    let depth_left = one_level_deeper(cursor, depth_left)?;
    read_joined(names, cursor, depth_left)
}

/// Puts an operand behind the others.
fn push_operand(all: &mut Vec<Expr>, one: Expr) -> Result<(), SourceFault>
    ensures ok { IfOk result
        (λ _. operands_of all.new.items ≡ expr_of one ∷ operands_of all.old.items) }
    ensures err { IfErr result (λ fault. fault.kind ≡ SourceFaultKind.OutOfMemory) }
{
    all.push(one)?;
    Ok(())
}

/// Operands, and the operators between them.
#[cycle(terms)]
#[tactic(auto, unfolding(crate::specs::Terms::expr_with), using(crate::proofs::Depths::expr_more, crate::proofs::Depths::expr_done))]
pub(crate) fn read_joined(
    names: &mut Names,
    cursor: &mut Cursor<'_>,
    depth_left: u32,
) -> Result<Expr, SourceFault>
    ensures { Reads (λ value. (expr_of value, cursor.new))
        (expr_with (readers depth_left) cursor.old (texts names.old)) (texts names.new) result }
{
    let mut operands = Vec::new(names.alloc());
    let mut waiting: Vec<Waiting> = Vec::new(names.alloc());
    let turns = most_nested();
    for turn in 0..turns {
        let one = read_operand(names, cursor, depth_left)?;
        push_operand(&mut operands, one)?;
        let at = place(cursor);
        let Some((operator, length)) = next_operator(cursor) else {
            return join_all(names.alloc(), cursor, operands, waiting);
        };
        let by = Waiting { operator, at };
        put_operator(names.alloc(), cursor, &mut operands, &mut waiting, by)?;
        pass(cursor, length);
    }
    Err(fault(cursor, SourceFaultKind::TooDeep))
}

/// The operator before an operand that is next.
fn next_sign(cursor: &Cursor<'_>) -> Option<Unary>
    ensures { result ≡ sign_of (next_kind cursor.now) }
{
    match next_kind(cursor) {
        Some(TokenKind::Punct(b'-')) => Some(Unary::Minus),
        Some(TokenKind::Punct(b'!')) => Some(Unary::Not),
        _ => None,
    }
}

/// The operators before an operand, which are passed over.
#[tactic(auto, unfolding(crate::specs::Simple::signs), using(crate::proofs::Turns::signs_more, crate::proofs::Turns::signs_done))]
fn take_signs(alloc: Global, cursor: &mut Cursor<'_>) -> Result<Vec<(Unary, Place)>, SourceFault>
    ensures { Yields (λ all. (all.items, cursor.new)) (signs cursor.old) result }
{
    let mut all = Vec::new(alloc);
    let turns = most_nested();
    for turn in 0..turns {
        let at = place(cursor);
        let Some(sign) = next_sign(cursor) else {
            return Ok(all);
        };
        all.push((sign, at))?;
        pass(cursor, 1);
    }
    Err(fault(cursor, SourceFaultKind::TooDeep))
}

/// An operand, with the operators before it and the casts behind.
#[cycle(terms)]
#[tactic(auto, unfolding(crate::specs::Terms::operand))]
fn read_operand(
    names: &mut Names,
    cursor: &mut Cursor<'_>,
    depth_left: u32,
) -> Result<Expr, SourceFault>
    ensures { Reads (λ value. (expr_of value, cursor.new))
        (operand (readers depth_left) cursor.old (texts names.old)) (texts names.new) result }
{
    let signs = take_signs(names.alloc(), cursor)?;
    let first = read_called(names, cursor, depth_left)?;
    let operand = with_signs(names.alloc(), first, signs)?;
    read_casts(names, cursor, operand, depth_left)
}

/// An operand without operators, with the calls of methods behind it.
#[cycle(terms)]
#[tactic(auto, unfolding(crate::specs::Terms::called))]
fn read_called(
    names: &mut Names,
    cursor: &mut Cursor<'_>,
    depth_left: u32,
) -> Result<Expr, SourceFault>
    ensures { Reads (λ value. (expr_of value, cursor.new))
        (called (readers depth_left) cursor.old (texts names.old)) (texts names.new) result }
{
    let first = read_primary(names, cursor, depth_left)?;
    read_methods(names, cursor, first, depth_left)
}

/// Whether the call of a method is next, behind what it is called on.
#[tactic(auto, unfolding(crate::specs::Terms::is_method_next))]
fn is_method_next(cursor: &Cursor<'_>) -> bool
    ensures { result ≡ is_method_next cursor.now }
{
    let mut behind_name = *cursor;
    pass(&mut behind_name, 2);
    is_next(cursor, b'.') && is_named_next(cursor) && is_group(&behind_name, Bracket::Round)
}

/// An operand with the calls of methods behind it.
#[cycle(terms)]
#[tactic(auto, using(crate::proofs::Depths::methods_more, crate::proofs::Depths::methods_done))]
fn read_methods(
    names: &mut Names,
    cursor: &mut Cursor<'_>,
    operand: Expr,
    depth_left: u32,
) -> Result<Expr, SourceFault>
    ensures { Reads (λ value. (expr_of value, cursor.new))
        (methods_from (readers depth_left) most_nested (expr_of operand) cursor.old (texts names.old)) (texts names.new) result }
{
    let mut operand = operand;
    let turns = most_nested();
    for turn in 0..turns {
        if !is_method_next(cursor) {
            return Ok(operand);
        }
        operand = read_method(names, cursor, operand, depth_left)?;
    }
    Err(fault(cursor, SourceFaultKind::TooDeep))
}

/// The call of a method whose `.` is next.
#[cycle(terms)]
#[tactic(auto, unfolding(crate::specs::Terms::method_read))]
fn read_method(
    names: &mut Names,
    cursor: &mut Cursor<'_>,
    receiver: Expr,
    depth_left: u32,
) -> Result<Expr, SourceFault>
    ensures { Reads (λ value. (expr_of value, cursor.new))
        (method_read (readers depth_left) (expr_of receiver) cursor.old (texts names.old)) (texts names.new) result }
{
    pass(cursor, 1);
    let (name, at) = take_name(names, cursor)?;
    let Some(mut inside) = take_group(cursor, Bracket::Round) else {
        return Err(fault(cursor, SourceFaultKind::ExpectedExpression));
    };
    let others = read_values(names, &mut inside, depth_left)?;
    call_of_method(names.alloc(), receiver, name, at, others)
}

/// A name of a path, without arguments.
pub(crate) fn name_segment(alloc: Global, name: Symbol, at: Place) -> Segment
    ensures { segment_of result ≡ segment name.0 at 0 no_arguments }
{
    Segment {
        name,
        at,
        lifetimes: 0,
        arguments: Vec::new(alloc),
    }
}

/// The path by which a method is called, whose name stands at this place.
fn path_of_method(alloc: Global, name: Symbol, at: Place) -> Result<Path, SourceFault>
    ensures ok { IfOk result (λ path. path_as_read path ≡ method_path name at) }
    ensures err { IfErr result (λ fault. fault.kind ≡ SourceFaultKind.OutOfMemory) }
{
    let mut segments = Vec::new(alloc);
    segments.push(name_segment(alloc, Symbol::UNDERSCORE, at))?;
    segments.push(name_segment(alloc, name, at))?;
    Ok(Path {
        is_global: false,
        segments,
    })
}

/// The call of a method on what stands before it, with what else it is given.
fn call_of_method(
    alloc: Global,
    receiver: Expr,
    name: Symbol,
    at: Place,
    others: Vec<Expr>,
) -> Result<Expr, SourceFault>
    ensures ok { IfOk result
        (λ whole. expr_of whole ≡ method (expr_of receiver) name at (map expr_of others.items)) }
    ensures err { IfErr result (λ fault. fault.kind ≡ SourceFaultKind.OutOfMemory) }
{
    let path = path_of_method(alloc, name, at)?;
    let mut arguments = others;
    arguments.insert(0, receiver)?;
    Ok(Expr::Call(path, arguments, at))
}

/// An operand, cast to a type behind an `as` that stands at this place.
fn with_cast(alloc: Global, operand: Expr, to: Type, at: Place) -> Result<Expr, SourceFault>
    ensures ok { IfOk result (λ whole. expr_of whole ≡ cast (expr_of operand) (type_of to) at) }
    ensures err { IfErr result (λ fault. fault.kind ≡ SourceFaultKind.OutOfMemory) }
{
    let from = Box::new(alloc, operand)?;
    let to = Box::new(alloc, to)?;
    Ok(Expr::Cast(from, to, at))
}

/// An operand with the casts behind it.
#[cycle(terms)]
#[tactic(auto, using(crate::proofs::Depths::cast_more, crate::proofs::Depths::cast_done))]
fn read_casts(
    names: &mut Names,
    cursor: &mut Cursor<'_>,
    operand: Expr,
    depth_left: u32,
) -> Result<Expr, SourceFault>
    ensures { Reads (λ value. (expr_of value, cursor.new))
        (cast_from (readers depth_left) most_nested (expr_of operand) cursor.old (texts names.old)) (texts names.new) result }
{
    let mut operand = operand;
    let turns = most_nested();
    for turn in 0..turns {
        let at = place(cursor);
        if !take_word(cursor, Keyword::As) {
            return Ok(operand);
        }
        let to = read_type(names, cursor, depth_left)?;
        operand = with_cast(names.alloc(), operand, to, at)?;
    }
    Err(fault(cursor, SourceFaultKind::TooDeep))
}

/// What brackets of this kind hold: braces a block, and others an expression.
#[cycle(terms)]
fn read_held(
    names: &mut Names,
    inside: &mut Cursor<'_>,
    bracket: Bracket,
    depth_left: u32,
) -> Result<Expr, SourceFault>
    ensures { Reads (λ value. (expr_of value, inside.new))
        (held_by (readers depth_left) bracket inside.old (texts names.old)) (texts names.new) result }
{
    match bracket {
        Bracket::Curly => read_block(names, inside, depth_left),
        _ => read_expression(names, inside, depth_left),
    }
}

/// An expression in brackets of this kind, alone.
#[cycle(terms)]
#[tactic(auto, unfolding(crate::specs::Terms::bracketed))]
pub(crate) fn read_in(
    names: &mut Names,
    cursor: &mut Cursor<'_>,
    bracket: Bracket,
    depth_left: u32,
) -> Result<Expr, SourceFault>
    ensures { Reads (λ value. (expr_of value, cursor.new))
        (bracketed (readers depth_left) bracket cursor.old (texts names.old)) (texts names.new) result }
{
    let Some(mut inside) = take_group(cursor, bracket) else {
        return Err(fault(cursor, SourceFaultKind::ExpectedExpression));
    };
    let value = read_held(names, &mut inside, bracket, depth_left)?;
    if is_done(&inside) {
        Ok(value)
    } else {
        Err(fault(&inside, SourceFaultKind::ExpectedExpression))
    }
}

/// A choice, behind its `if`, which stands at this place.
#[cycle(terms)]
#[tactic(auto, using(crate::proofs::Depths::choice_less, crate::proofs::Depths::choice_none))]
fn read_choice(
    names: &mut Names,
    cursor: &mut Cursor<'_>,
    at: Place,
    depth_left: u32,
) -> Result<Expr, SourceFault>
    ensures { Reads (λ value. (expr_of value, cursor.new))
        (choice_read depth_left at cursor.old (texts names.old)) (texts names.new) result }
{
    let depth_left = one_level_deeper(cursor, depth_left)?;
    read_tested(names, cursor, at, depth_left)
}

/// The test of a choice, and what stands behind it.
#[cycle(terms)]
#[tactic(auto, unfolding(crate::specs::Terms::choice_with))]
fn read_tested(
    names: &mut Names,
    cursor: &mut Cursor<'_>,
    at: Place,
    depth_left: u32,
) -> Result<Expr, SourceFault>
    ensures { Reads (λ value. (expr_of value, cursor.new))
        (choice_with (readers depth_left) at cursor.old (texts names.old)) (texts names.new) result }
{
    let test = read_expression(names, cursor, depth_left)?;
    read_branches(names, cursor, test, at, depth_left)
}

/// The choice of three expressions, which stands at this place.
pub(crate) fn choice(
    alloc: Global,
    test: Expr,
    yes: Expr,
    no: Expr,
    at: Place,
) -> Result<Expr, SourceFault>
    ensures ok { IfOk result
        (λ whole. expr_of whole ≡ choice (expr_of test) (expr_of yes) (expr_of no) at) }
    ensures err { IfErr result (λ fault. fault.kind ≡ SourceFaultKind.OutOfMemory) }
{
    let test = Box::new(alloc, test)?;
    let yes = Box::new(alloc, yes)?;
    let no = Box::new(alloc, no)?;
    Ok(Expr::If(test, yes, no, at))
}

/// The choice by this test, behind it.
#[cycle(terms)]
fn read_branches(
    names: &mut Names,
    cursor: &mut Cursor<'_>,
    test: Expr,
    at: Place,
    depth_left: u32,
) -> Result<Expr, SourceFault>
    ensures { Reads (λ value. (expr_of value, cursor.new))
        (choice_behind (readers depth_left) at (expr_of test) cursor.old (texts names.old)) (texts names.new) result }
{
    let yes = read_in(names, cursor, Bracket::Curly, depth_left)?;
    if !take_word(cursor, Keyword::Else) {
        return Err(fault(cursor, SourceFaultKind::ExpectedExpression));
    }
    let no = read_else(names, cursor, depth_left)?;
    choice(names.alloc(), test, yes, no, at)
}

/// What stands behind `else`.
#[cycle(terms)]
fn read_else(
    names: &mut Names,
    cursor: &mut Cursor<'_>,
    depth_left: u32,
) -> Result<Expr, SourceFault>
    ensures { Reads (λ value. (expr_of value, cursor.new))
        (else_read (readers depth_left) cursor.old (texts names.old)) (texts names.new) result }
{
    let again = place(cursor);
    if take_word(cursor, Keyword::If) {
        return read_choice(names, cursor, again, depth_left);
    }
    read_in(names, cursor, Bracket::Curly, depth_left)
}

/// An operand without operators.
#[cycle(terms)]
#[tactic(auto, unfolding(crate::specs::Terms::primary))]
fn read_primary(
    names: &mut Names,
    cursor: &mut Cursor<'_>,
    depth_left: u32,
) -> Result<Expr, SourceFault>
    ensures { Reads (λ value. (expr_of value, cursor.new))
        (primary (readers depth_left) cursor.old (texts names.old)) (texts names.new) result }
{
    if is_literal(cursor) {
        return read_literal(cursor);
    }
    if is_cfg_call(cursor) {
        return Ok(read_cfg_call(cursor));
    }
    let at = place(cursor);
    match next_kind(cursor) {
        Some(TokenKind::Open(Bracket::Round)) => {
            read_in(names, cursor, Bracket::Round, depth_left)
        }
        Some(TokenKind::Open(Bracket::Curly)) => {
            read_in(names, cursor, Bracket::Curly, depth_left)
        }
        Some(TokenKind::Keyword(Keyword::If)) => {
            pass(cursor, 1);
            read_choice(names, cursor, at, depth_left)
        }
        Some(TokenKind::Keyword(Keyword::Match)) => {
            pass(cursor, 1);
            read_match(names, cursor, at, depth_left)
        }
        Some(TokenKind::Keyword(Keyword::Const)) => {
            pass(cursor, 1);
            read_in(names, cursor, Bracket::Curly, depth_left)
        }
        _ => read_value(names, cursor, depth_left),
    }
}

/// A path, or the call of what it names.
#[cycle(terms)]
#[tactic(auto, unfolding(crate::specs::Terms::value))]
fn read_value(
    names: &mut Names,
    cursor: &mut Cursor<'_>,
    depth_left: u32,
) -> Result<Expr, SourceFault>
    ensures { Reads (λ value. (expr_of value, cursor.new))
        (value (readers depth_left) cursor.old (texts names.old)) (texts names.new) result }
{
    let at = place(cursor);
    let path = read_value_path(names, cursor, depth_left)?;
    let Some(mut inside) = take_group(cursor, Bracket::Round) else {
        return Ok(Expr::Path(path));
    };
    let arguments = read_values(names, &mut inside, depth_left)?;
    Ok(Expr::Call(path, arguments, at))
}

/// Puts an expression behind the others.
fn push_value(all: &mut Vec<Expr>, one: Expr) -> Result<(), SourceFault>
    ensures ok { IfOk result
        (λ _. map expr_of all.new.items ≡ map expr_of all.old.items ++ expr_of one ∷ []) }
    ensures err { IfErr result (λ fault. fault.kind ≡ SourceFaultKind.OutOfMemory) }
{
    all.push(one)?;
    Ok(())
}

/// The expressions that stand in parentheses.
#[cycle(terms)]
#[tactic(auto, unfolding(crate::specs::Terms::expressions_in), using(crate::proofs::Depths::values_more, crate::proofs::Depths::values_done))]
fn read_values(
    names: &mut Names,
    inside: &mut Cursor<'_>,
    depth_left: u32,
) -> Result<Vec<Expr>, SourceFault>
    ensures { Reads (λ all. map expr_of all.items)
        (expressions_in (readers depth_left) inside.old (texts names.old)) (texts names.new) result }
{
    let mut all = Vec::new(names.alloc());
    let turns = inside.end.saturating_sub(inside.at);
    for turn in 0..turns {
        if is_done(inside) {
            return Ok(all);
        }
        let one = read_expression(names, inside, depth_left)?;
        push_value(&mut all, one)?;
        expect_comma(inside)?;
    }
    Ok(all)
}

/// Whether a literal is next.
#[tactic(auto, unfolding(crate::specs::Simple::is_literal))]
pub(crate) fn is_literal(cursor: &Cursor<'_>) -> bool
    ensures { result ≡ is_literal cursor.now }
{
    match next_kind(cursor) {
        Some(TokenKind::Number | TokenKind::Char | TokenKind::Byte | TokenKind::Text) => true,
        Some(TokenKind::Keyword(Keyword::True | Keyword::False)) => true,
        _ => false,
    }
}

/// The number that the next token is.
fn number_literal(cursor: &Cursor<'_>, token: Token) -> Result<Expr, SourceFault>
    ensures { read_as expr_of result ≡ number_read cursor.now
        (number_written (token_text cursor.now token)) }
{
    let at = place(cursor);
    match number_of(text_of(cursor, token).as_bytes()) {
        Number::Integer(value, kind) => Ok(Expr::Integer(value, kind, at)),
        Number::Float => Ok(Expr::Unevaluated(Unevaluated::Expression, at)),
        Number::Bad => Err(fault(cursor, SourceFaultKind::BadNumber)),
    }
}

/// The character that the next token is.
fn char_literal(cursor: &Cursor<'_>, token: Token) -> Result<Expr, SourceFault>
    ensures { read_as expr_of result ≡ char_read cursor.now
        (char_code (token_text cursor.now token)) }
{
    let at = place(cursor);
    match char_code(text_of(cursor, token).as_bytes()) {
        Ok(code) => Ok(Expr::Char(code, at)),
        Err(kind) => Err(fault(cursor, kind)),
    }
}

/// The byte that the next token is.
fn byte_literal(cursor: &Cursor<'_>, token: Token) -> Result<Expr, SourceFault>
    ensures { read_as expr_of result ≡ byte_read cursor.now
        (char_code (drop 1 (token_text cursor.now token))) }
{
    let at = place(cursor);
    match char_code(bytes_after(text_of(cursor, token).as_bytes(), 1)) {
        Ok(code) if code < 256 => Ok(Expr::Integer(u128::from(code), Some(IntegerKind::U8), at)),
        _ => Err(fault(cursor, SourceFaultKind::BadCharacter)),
    }
}

/// The string that the next token is. C's isn't read.
fn text_literal(cursor: &Cursor<'_>, token: Token) -> Expr
    ensures { expr_of result ≡ text_read cursor.now (text_length (token_text cursor.now token)) }
{
    let at = place(cursor);
    match text_length(text_of(cursor, token).as_bytes()) {
        Some(bytes) => Expr::Text(bytes, at),
        None => Expr::Unevaluated(Unevaluated::Expression, at),
    }
}

/// The literal that the next token is.
fn literal_of(cursor: &Cursor<'_>, token: Token) -> Result<Expr, SourceFault>
    ensures { read_as expr_of result ≡ literal_of cursor.now token token.kind }
{
    match token.kind {
        TokenKind::Number => number_literal(cursor, token),
        TokenKind::Char => char_literal(cursor, token),
        TokenKind::Byte => byte_literal(cursor, token),
        TokenKind::Text => Ok(text_literal(cursor, token)),
        TokenKind::Keyword(word) => Ok(Expr::Bool(word == Keyword::True, place(cursor))),
        _ => Ok(Expr::Unevaluated(Unevaluated::Expression, place(cursor))),
    }
}

/// A literal.
#[tactic(auto, unfolding(crate::specs::Simple::literal_read))]
pub(crate) fn read_literal(cursor: &mut Cursor<'_>) -> Result<Expr, SourceFault>
    ensures { read_as (λ whole. (expr_of whole, cursor.new)) result ≡ literal_read cursor.old }
{
    let Some(token) = nth(cursor, 0) else {
        return Err(fault(cursor, SourceFaultKind::ExpectedExpression));
    };
    let value = literal_of(cursor, token)?;
    pass(cursor, 1);
    Ok(value)
}

/// A literal, with the operators before it.
#[tactic(auto, unfolding(crate::specs::Simple::signed_literal))]
pub(crate) fn read_signed(alloc: Global, cursor: &mut Cursor<'_>) -> Result<Expr, SourceFault>
    ensures { Yields (λ whole. (expr_of whole, cursor.new)) (signed_literal cursor.old) result }
{
    let signs = take_signs(alloc, cursor)?;
    if !is_literal(cursor) {
        return Err(fault(cursor, SourceFaultKind::ExpectedExpression));
    }
    with_signs(alloc, read_literal(cursor)?, signs)
}
