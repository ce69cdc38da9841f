//! Parameters of items, and what `where` asks of them.

ghost use Rattle.std.specs.Prelude.{◌≡◌, ◌∷◌, ◌++◌, [], IfErr, IfOk, map};
ghost use Rattle.std.specs.Option.{option_map};
ghost use Rattle.rust_source.specs.Generics.{asked, const_default, const_kind, const_parameter, constant_argument, is_bounded_name, let_unsized, parameter_more, parameters_in, parameters_read, type_default, type_parameter, where_all, where_one, where_read};
ghost use Rattle.rust_source.specs.Items.{parameter_kind_of, parameter_of};
ghost use Rattle.rust_source.specs.Lifetimes.{hashes_passed};
ghost use Rattle.rust_source.specs.Names.{texts};
ghost use Rattle.rust_source.specs.Reading.{Reads};
ghost use Rattle.rust_source.specs.Syntax.{argument_of, expr_of, type_of};

use crate::fault::{SourceFault, SourceFaultKind};
use crate::item::{Parameter, ParameterKind};
use crate::names::Names;
use crate::place::Symbol;
use crate::reader::cursor::{
    Cursor, expect, fault, is_lifetime, is_nth, is_nth_pair, next_kind, pass, take, take_group,
    take_word,
};
use crate::reader::depth::most_nested;
use crate::reader::naming::take_name;
use crate::reader::passing::pass_bounds;
use crate::reader::paths::{goes_on, read_argument};
use crate::reader::repeated::refuse_repeated_parameters;
use crate::reader::types::read_type;
use crate::syntax::{Argument, Expr, Type};
use crate::tokens::keyword::Keyword;
use crate::tokens::token::{Bracket, TokenKind};

/// The expression that an argument is, where it can be a constant.
fn as_constant(argument: Argument) -> Option<Expr>
    ensures { option_map expr_of result ≡ constant_argument (argument_of argument) }
{
    match argument {
        Argument::Const(value) => Some(value),
        Argument::Type(Type::Path(path)) => Some(Expr::Path(path)),
        _ => None,
    }
}

/// The default of a constant, behind a `=`.
#[tactic(auto, unfolding(crate::specs::Generics::const_default))]
fn read_const_default(
    names: &mut Names,
    cursor: &mut Cursor<'_>,
) -> Result<Option<Expr>, SourceFault>
    ensures { Reads (λ value. (option_map expr_of value, cursor.new))
        (const_default cursor.old (texts names.old)) (texts names.new) result }
{
    if !take(cursor, b'=') {
        return Ok(None);
    }
    let before = *cursor;
    let argument = read_argument(names, cursor, most_nested())?;
    match as_constant(argument) {
        Some(value) => Ok(Some(value)),
        None => Err(fault(&before, SourceFaultKind::ExpectedExpression)),
    }
}

/// The type of a constant parameter, and its default.
#[tactic(auto, unfolding(crate::specs::Generics::const_kind))]
fn read_const_kind(names: &mut Names, cursor: &mut Cursor<'_>) -> Result<ParameterKind, SourceFault>
    ensures { Reads (λ kind. (parameter_kind_of kind, cursor.new))
        (const_kind cursor.old (texts names.old)) (texts names.new) result }
{
    let ty = read_type(names, cursor, most_nested())?;
    let default = read_const_default(names, cursor)?;
    Ok(ParameterKind::Const(ty, default))
}

/// A constant parameter, behind its `const`.
#[tactic(auto, unfolding(crate::specs::Generics::const_parameter))]
fn read_const_parameter(
    names: &mut Names,
    cursor: &mut Cursor<'_>,
) -> Result<Parameter, SourceFault>
    ensures { Reads (λ one. (parameter_of one, cursor.new))
        (const_parameter cursor.old (texts names.old)) (texts names.new) result }
{
    let (name, at) = take_name(names, cursor)?;
    expect(cursor, b':', SourceFaultKind::ExpectedColon)?;
    let kind = read_const_kind(names, cursor)?;
    Ok(Parameter {
        name,
        at,
        may_be_unsized: false,
        kind,
    })
}

/// Passes over bounds behind a `:`, and says whether a `?` is among them.
pub(crate) fn pass_asked(cursor: &mut Cursor<'_>) -> bool
    ensures { (result, cursor.new) ≡ asked cursor.old }
{
    take(cursor, b':') && pass_bounds(cursor)
}

/// The default of a type, behind a `=`.
#[tactic(auto, unfolding(crate::specs::Generics::type_default))]
fn read_type_default(
    names: &mut Names,
    cursor: &mut Cursor<'_>,
) -> Result<Option<Type>, SourceFault>
    ensures { Reads (λ ty. (option_map type_of ty, cursor.new))
        (type_default cursor.old (texts names.old)) (texts names.new) result }
{
    if take(cursor, b'=') {
        Ok(Some(read_type(names, cursor, most_nested())?))
    } else {
        Ok(None)
    }
}

/// A type's parameter.
#[tactic(auto, unfolding(crate::specs::Generics::type_parameter))]
fn read_type_parameter(names: &mut Names, cursor: &mut Cursor<'_>) -> Result<Parameter, SourceFault>
    ensures { Reads (λ one. (parameter_of one, cursor.new))
        (type_parameter cursor.old (texts names.old)) (texts names.new) result }
{
    let (name, at) = take_name(names, cursor)?;
    let may_be_unsized = pass_asked(cursor);
    let default = read_type_default(names, cursor)?;
    Ok(Parameter {
        name,
        at,
        may_be_unsized,
        kind: ParameterKind::Type(default),
    })
}

/// Passes over attributes of a parameter.
#[tactic(auto, unfolding(crate::specs::Lifetimes::hashes_passed), using(crate::proofs::GenericTurns::hashes_more, crate::proofs::GenericTurns::hashes_done))]
pub(crate) fn pass_attributes(cursor: &mut Cursor<'_>)
    ensures { cursor.new ≡ hashes_passed cursor.old }
{
    let turns = cursor.end.saturating_sub(cursor.at);
    for turn in 0..turns {
        if !take(cursor, b'#') {
            return;
        }
        let _ = take_group(cursor, Bracket::Square);
    }
}

/// Puts a parameter behind the others.
pub(crate) fn push_parameter(all: &mut Vec<Parameter>, one: Parameter) -> Result<(), SourceFault>
    ensures ok { IfOk result
        (λ _. map parameter_of all.new.items ≡ map parameter_of all.old.items ++ parameter_of one ∷ []) }
    ensures err { IfErr result (λ fault. fault.kind ≡ SourceFaultKind.OutOfMemory) }
{
    all.push(one)?;
    Ok(())
}

/// Puts the parameter that is next behind the others. A lifetime is passed over.
#[tactic(auto, unfolding(crate::specs::Generics::parameter_more))]
fn add_parameter(
    names: &mut Names,
    cursor: &mut Cursor<'_>,
    all: &mut Vec<Parameter>,
) -> Result<(), SourceFault>
    ensures { Reads (λ _. (map parameter_of all.new.items, cursor.new))
        (parameter_more (map parameter_of all.old.items) cursor.old (texts names.old)) (texts names.new) result }
{
    pass_attributes(cursor);
    if is_lifetime(cursor) {
        let _ = pass_bounds(cursor);
        return Ok(());
    }
    let one = if take_word(cursor, Keyword::Const) {
        read_const_parameter(names, cursor)?
    } else {
        read_type_parameter(names, cursor)?
    };
    push_parameter(all, one)
}

/// Puts parameters behind the others, whose `<` stands before; their `>` is passed over.
#[tactic(auto, unfolding(crate::specs::Generics::parameters_in), using(crate::proofs::GenericTurns::another, crate::proofs::GenericTurns::none_more))]
fn add_parameters(
    names: &mut Names,
    cursor: &mut Cursor<'_>,
    all: &mut Vec<Parameter>,
) -> Result<(), SourceFault>
    ensures { Reads (λ _. (map parameter_of all.new.items, cursor.new))
        (parameters_in (map parameter_of all.old.items) cursor.old (texts names.old)) (texts names.new) result }
{
    let turns = cursor.end.saturating_sub(cursor.at);
    for turn in 0..turns {
        if take(cursor, b'>') {
            return Ok(());
        }
        add_parameter(names, cursor, all)?;
        if !goes_on(cursor) {
            return Err(fault(cursor, SourceFaultKind::ExpectedAngle));
        }
    }
    Err(fault(cursor, SourceFaultKind::ExpectedAngle))
}

/// The parameters of an item, lifetimes left out. None stand where no `<` is next.
#[tactic(auto, unfolding(crate::specs::Generics::parameters_read))]
pub(crate) fn read_parameters(
    names: &mut Names,
    cursor: &mut Cursor<'_>,
) -> Result<Vec<Parameter>, SourceFault>
    ensures { Reads (λ all. (map parameter_of all.items, cursor.new))
        (parameters_read cursor.old (texts names.old)) (texts names.new) result }
{
    let mut all = Vec::new(names.alloc());
    if take(cursor, b'<') {
        add_parameters(names, cursor, &mut all)?;
        refuse_repeated_parameters(names.alloc(), &all)?;
    }
    Ok(all)
}

/// Lets the parameter of this name be unsized.
fn let_unsized(all: &mut Vec<Parameter>, name: Symbol)
    ensures { map parameter_of all.new.items ≡ map (let_unsized name)
        (map parameter_of all.old.items) }
{
    for parameter in all.iter_mut() {
        if parameter.name == name {
            parameter.may_be_unsized = true;
        }
    }
}

/// Whether a name with its bounds is next, as `T: Copy`.
#[tactic(auto, unfolding(crate::specs::Generics::is_bounded_name))]
fn is_bounded_name(cursor: &Cursor<'_>) -> bool
    ensures { result ≡ is_bounded_name cursor.now }
{
    match next_kind(cursor) {
        Some(TokenKind::Name | TokenKind::RawName) => {
            is_nth(cursor, 1, b':') && !is_nth_pair(cursor, 1, b':', b':')
        }
        _ => false,
    }
}

/// Reads what the next of `where` asks of the parameters.
#[tactic(auto, unfolding(crate::specs::Generics::where_one))]
fn read_where_one(
    names: &mut Names,
    cursor: &mut Cursor<'_>,
    all: &mut Vec<Parameter>,
) -> Result<(), SourceFault>
    ensures { Reads (λ _. (map parameter_of all.new.items, cursor.new))
        (where_one (map parameter_of all.old.items) cursor.old (texts names.old)) (texts names.new) result }
{
    if !is_bounded_name(cursor) {
        let _ = pass_bounds(cursor);
        return Ok(());
    }
    let (name, _at) = take_name(names, cursor)?;
    pass(cursor, 1);
    if pass_bounds(cursor) {
        let_unsized(all, name);
    }
    Ok(())
}

/// Reads all that `where` asks of the parameters, behind its word.
#[tactic(auto, unfolding(crate::specs::Generics::where_all), using(crate::proofs::GenericTurns::where_more, crate::proofs::GenericTurns::where_done))]
fn read_where_all(
    names: &mut Names,
    cursor: &mut Cursor<'_>,
    all: &mut Vec<Parameter>,
) -> Result<(), SourceFault>
    ensures { Reads (λ _. (map parameter_of all.new.items, cursor.new))
        (where_all (map parameter_of all.old.items) cursor.old (texts names.old)) (texts names.new) result }
{
    let turns = cursor.end.saturating_sub(cursor.at);
    for turn in 0..turns {
        read_where_one(names, cursor, all)?;
        if !take(cursor, b',') {
            return Ok(());
        }
    }
    Ok(())
}

/// Reads what `where` asks of the parameters, where it is next.
#[tactic(auto, unfolding(crate::specs::Generics::where_read))]
pub(crate) fn read_where(
    names: &mut Names,
    cursor: &mut Cursor<'_>,
    all: &mut Vec<Parameter>,
) -> Result<(), SourceFault>
    ensures { Reads (λ _. (map parameter_of all.new.items, cursor.new))
        (where_read (map parameter_of all.old.items) cursor.old (texts names.old)) (texts names.new) result }
{
    if take_word(cursor, Keyword::Where) {
        read_where_all(names, cursor, all)
    } else {
        Ok(())
    }
}
