//! Choices by a `match`: a `let` of what is compared, and a chain of `if`s behind it, so that one rule tells the types of both.

ghost use Rattle.std.specs.Prelude.{◌≡◌, IfErr, IfOk};
ghost use Rattle.rust_source.specs.Matches.{bound_by, bound_path, compared, ends_pattern, matched, place_alone};
ghost use Rattle.rust_source.specs.Names.{texts};
ghost use Rattle.rust_source.specs.Reading.{Reads};
ghost use Rattle.rust_source.specs.Syntax.{binary, expr_of, path_as_read};
ghost use Rattle.rust_source.specs.Terms.{arm_body, arm_read, arms_read, arms_with, bound_read, end_test, guarded, match_read, pattern_read, patterns_read, patterns_with, range_test, readers};

use crate::fault::{SourceFault, SourceFaultKind};
use crate::names::Names;
use crate::place::{Place, Symbol};
use crate::reader::blocks::{LocalName, inferred, with_local};
use crate::reader::cursor::{
    Cursor, expect_comma, fault, is_done, is_group, is_next, is_pair, is_word, pass, take,
    take_group, take_pair, take_word,
};
use crate::reader::depth::one_level_deeper;
use crate::reader::expressions::{
    choice, is_literal, name_segment, read_expression, read_in, read_signed,
};
use crate::reader::paths::{read_path, with_first};
use crate::syntax::{Binary, Expr, Path, Unevaluated};
use crate::tokens::keyword::Keyword;
use crate::tokens::token::Bracket;
use std::alloc::Global;

/// The value that is matched, by the name that its `let` has.
fn matched(alloc: Global, at: Place) -> Result<Expr, SourceFault>
    ensures ok { IfOk result (λ value. expr_of value ≡ matched at) }
    ensures err { IfErr result (λ fault. fault.kind ≡ SourceFaultKind.OutOfMemory) }
{
    let mut segments = Vec::new(alloc);
    segments.push(name_segment(alloc, Symbol::UNDERSCORE, at))?;
    Ok(Expr::Path(Path {
        is_global: false,
        segments,
    }))
}

/// An operator between two operands.
fn joined(
    alloc: Global,
    operator: Binary,
    left: Expr,
    right: Expr,
    at: Place,
) -> Result<Expr, SourceFault>
    ensures ok { IfOk result (λ whole. expr_of whole ≡ binary operator (expr_of left) (expr_of right) at) }
    ensures err { IfErr result (λ fault. fault.kind ≡ SourceFaultKind.OutOfMemory) }
{
    let left = Box::new(alloc, left)?;
    let right = Box::new(alloc, right)?;
    Ok(Expr::Binary(operator, left, right, at))
}

/// The value that is matched, compared with another one.
fn compared(alloc: Global, at: Place, operator: Binary, bound: Expr) -> Result<Expr, SourceFault>
    ensures ok { IfOk result (λ whole. expr_of whole ≡ compared at operator (expr_of bound)) }
    ensures err { IfErr result (λ fault. fault.kind ≡ SourceFaultKind.OutOfMemory) }
{
    let value = matched(alloc, at)?;
    joined(alloc, operator, value, bound, at)
}

/// Where a path stands that is one name.
#[tactic(auto, using(crate::proofs::Pushed::alone_is))]
fn place_alone(path: &Path) -> Option<Place>
    ensures { result ≡ place_alone (path_as_read path.now) }
{
    if path.is_global {
        return None;
    }
    match path.segments.as_slice() {
        [one] => Some(one.at),
        _ => None,
    }
}

/// The path of a pattern: a name alone is a constant's of the module.
fn bound_path(alloc: Global, path: Path) -> Result<Path, SourceFault>
    ensures ok { IfOk result (λ whole. path_as_read whole ≡ bound_path (path_as_read path)) }
    ensures err { IfErr result (λ fault. fault.kind ≡ SourceFaultKind.OutOfMemory) }
{
    match place_alone(&path) {
        Some(at) => with_first(name_segment(alloc, Symbol::SELF, at), path),
        None => Ok(path),
    }
}

/// Whether a pattern ends here.
#[tactic(auto, unfolding(crate::specs::Matches::ends_pattern))]
fn ends_pattern(cursor: &Cursor<'_>) -> bool
    ensures { result ≡ ends_pattern cursor.now }
{
    is_pair(cursor, b'=', b'>') || (is_next(cursor, b'|') || is_word(cursor, Keyword::If))
}

/// A literal or a constant of a pattern.
#[cycle(terms)]
#[tactic(auto, unfolding(crate::specs::Terms::bound_read))]
fn read_bound(
    names: &mut Names,
    cursor: &mut Cursor<'_>,
    depth_left: u32,
) -> Result<Expr, SourceFault>
    ensures { Reads (λ value. (expr_of value, cursor.new))
        (bound_read (readers depth_left) cursor.old (texts names.old)) (texts names.new) result }
{
    if is_literal(cursor) || is_next(cursor, b'-') {
        return read_signed(names.alloc(), cursor);
    }
    let path = read_path(names, cursor, false, depth_left)?;
    Ok(Expr::Path(bound_path(names.alloc(), path)?))
}

/// The end of a range, behind its `..`.
#[cycle(terms)]
#[tactic(auto, unfolding(crate::specs::Terms::end_test))]
fn read_end(
    names: &mut Names,
    cursor: &mut Cursor<'_>,
    at: Place,
    depth_left: u32,
) -> Result<Expr, SourceFault>
    ensures { Reads (λ value. (expr_of value, cursor.new))
        (end_test (readers depth_left) at cursor.old (texts names.old)) (texts names.new) result }
{
    let operator = if take(cursor, b'=') {
        Binary::LessOrEqual
    } else {
        Binary::Less
    };
    let bound = read_bound(names, cursor, depth_left)?;
    compared(names.alloc(), at, operator, bound)
}

/// What follows a pattern's first value: the rest of a range, or nothing.
#[cycle(terms)]
fn read_range(
    names: &mut Names,
    cursor: &mut Cursor<'_>,
    first: Expr,
    at: Place,
    depth_left: u32,
) -> Result<Expr, SourceFault>
    ensures { Reads (λ value. (expr_of value, cursor.new))
        (range_test (readers depth_left) at (expr_of first) cursor.old (texts names.old)) (texts names.new) result }
{
    if !take_pair(cursor, b'.', b'.') {
        return compared(names.alloc(), at, Binary::Equal, first);
    }
    let from = compared(names.alloc(), at, Binary::GreaterOrEqual, first)?;
    if ends_pattern(cursor) {
        return Ok(from);
    }
    let to = read_end(names, cursor, at, depth_left)?;
    joined(names.alloc(), Binary::And, from, to, at)
}

/// A pattern: a value, a range or `_`.
#[cycle(terms)]
#[tactic(auto, unfolding(crate::specs::Terms::pattern_read))]
fn read_pattern(
    names: &mut Names,
    cursor: &mut Cursor<'_>,
    at: Place,
    depth_left: u32,
) -> Result<Expr, SourceFault>
    ensures { Reads (λ value. (expr_of value, cursor.new))
        (pattern_read (readers depth_left) at cursor.old (texts names.old)) (texts names.new) result }
{
    if take_word(cursor, Keyword::Underscore) {
        return Ok(Expr::Bool(true, at));
    }
    if take_pair(cursor, b'.', b'.') {
        return read_end(names, cursor, at, depth_left);
    }
    let first = read_bound(names, cursor, depth_left)?;
    read_range(names, cursor, first, at, depth_left)
}

/// Patterns, one level deeper.
#[cycle(terms)]
#[tactic(auto, unfolding(crate::specs::Terms::patterns_with))]
fn read_patterns_within(
    names: &mut Names,
    cursor: &mut Cursor<'_>,
    at: Place,
    depth_left: u32,
) -> Result<Expr, SourceFault>
    ensures { Reads (λ value. (expr_of value, cursor.new))
        (patterns_with (readers depth_left) at cursor.old (texts names.old)) (texts names.new) result }
{
    let one = read_pattern(names, cursor, at, depth_left)?;
    if !take(cursor, b'|') {
        return Ok(one);
    }
    let others = read_patterns(names, cursor, at, depth_left)?;
    joined(names.alloc(), Binary::Or, one, others, at)
}

/// Patterns with a `|` between them.
#[cycle(terms)]
#[tactic(auto, using(crate::proofs::Depths::patterns_less, crate::proofs::Depths::patterns_none))]
fn read_patterns(
    names: &mut Names,
    cursor: &mut Cursor<'_>,
    at: Place,
    depth_left: u32,
) -> Result<Expr, SourceFault>
    ensures { Reads (λ value. (expr_of value, cursor.new))
        (patterns_read depth_left at cursor.old (texts names.old)) (texts names.new) result }
{
    let depth_left = one_level_deeper(cursor, depth_left)?;
    read_patterns_within(names, cursor, at, depth_left)
}

/// The test that patterns make, with the condition behind them, where one is.
#[cycle(terms)]
fn read_guard(
    names: &mut Names,
    cursor: &mut Cursor<'_>,
    test: Expr,
    at: Place,
    depth_left: u32,
) -> Result<Expr, SourceFault>
    ensures { Reads (λ value. (expr_of value, cursor.new))
        (guarded (readers depth_left) at (expr_of test) cursor.old (texts names.old)) (texts names.new) result }
{
    if !take_word(cursor, Keyword::If) {
        return Ok(test);
    }
    let condition = read_expression(names, cursor, depth_left)?;
    joined(names.alloc(), Binary::And, test, condition, at)
}

/// The value of an arm, and the `,` behind it, which a block doesn't need.
#[cycle(terms)]
fn read_arm_body(
    names: &mut Names,
    cursor: &mut Cursor<'_>,
    depth_left: u32,
) -> Result<Expr, SourceFault>
    ensures { Reads (λ value. (expr_of value, cursor.new))
        (arm_body (readers depth_left) cursor.old (texts names.old)) (texts names.new) result }
{
    if is_group(cursor, Bracket::Curly) {
        let value = read_in(names, cursor, Bracket::Curly, depth_left)?;
        let _has_comma = take(cursor, b',');
        return Ok(value);
    }
    let value = read_expression(names, cursor, depth_left)?;
    expect_comma(cursor)?;
    Ok(value)
}

/// An arm, behind its test, with those that follow it.
#[cycle(terms)]
fn read_arm(
    names: &mut Names,
    cursor: &mut Cursor<'_>,
    test: Expr,
    at: Place,
    depth_left: u32,
) -> Result<Expr, SourceFault>
    ensures { Reads (λ value. (expr_of value, cursor.new))
        (arm_read (readers depth_left) at (expr_of test) cursor.old (texts names.old)) (texts names.new) result }
{
    if !take_pair(cursor, b'=', b'>') {
        return Err(fault(cursor, SourceFaultKind::ExpectedExpression));
    }
    let value = read_arm_body(names, cursor, depth_left)?;
    let others = read_arms(names, cursor, at, depth_left)?;
    choice(names.alloc(), test, value, others, at)
}

/// The arms of a `match`, one level deeper.
#[cycle(terms)]
#[tactic(auto, unfolding(crate::specs::Terms::arms_with))]
fn read_arms_within(
    names: &mut Names,
    cursor: &mut Cursor<'_>,
    at: Place,
    depth_left: u32,
) -> Result<Expr, SourceFault>
    ensures { Reads (λ value. (expr_of value, cursor.new))
        (arms_with (readers depth_left) at cursor.old (texts names.old)) (texts names.new) result }
{
    if is_done(cursor) {
        return Ok(Expr::Unevaluated(Unevaluated::Expression, at));
    }
    let test = read_patterns(names, cursor, at, depth_left)?;
    let test = read_guard(names, cursor, test, at, depth_left)?;
    read_arm(names, cursor, test, at, depth_left)
}

/// The arms of a `match`, which stands at this place.
#[cycle(terms)]
#[tactic(auto, using(crate::proofs::Depths::arms_less, crate::proofs::Depths::arms_none))]
fn read_arms(
    names: &mut Names,
    cursor: &mut Cursor<'_>,
    at: Place,
    depth_left: u32,
) -> Result<Expr, SourceFault>
    ensures { Reads (λ value. (expr_of value, cursor.new))
        (arms_read depth_left at cursor.old (texts names.old)) (texts names.new) result }
{
    let depth_left = one_level_deeper(cursor, depth_left)?;
    read_arms_within(names, cursor, at, depth_left)
}

/// A choice behind its `match`, which stands at this place.
#[cycle(terms)]
#[tactic(auto, unfolding(crate::specs::Terms::match_read))]
pub(crate) fn read_match(
    names: &mut Names,
    cursor: &mut Cursor<'_>,
    at: Place,
    depth_left: u32,
) -> Result<Expr, SourceFault>
    ensures { Reads (λ value. (expr_of value, cursor.new))
        (match_read (readers depth_left) at cursor.old (texts names.old)) (texts names.new) result }
{
    let value = read_expression(names, cursor, depth_left)?;
    let Some(mut inside) = take_group(cursor, Bracket::Curly) else {
        return Err(fault(cursor, SourceFaultKind::ExpectedExpression));
    };
    let arms = read_arms(names, &mut inside, at, depth_left)?;
    let name = Symbol::UNDERSCORE;
    with_local(
        names.alloc(),
        LocalName { name, at },
        inferred(at),
        value,
        arms,
    )
}
