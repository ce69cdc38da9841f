//! Functions and statics: their names, and what constants need of them.

ghost use Rattle.std.specs.Prelude.{◌≡◌, map};
ghost use Rattle.rust_source.specs.Functions.{body_read, function_behind, function_named, function_read, function_valued, head_named, is_qualifier, is_valued, qualifiers_passed, result_type, signature_read, static_named, static_read, value_parameter, value_parameters};
ghost use Rattle.rust_source.specs.Growth.{KeepsItems};
ghost use Rattle.rust_source.specs.Items.{items_as_read, parameter_of};
ghost use Rattle.rust_source.specs.Names.{texts};
ghost use Rattle.rust_source.specs.Reading.{Reads};
ghost use Rattle.rust_source.specs.Definition.{definition_of, head_of};
ghost use Rattle.rust_source.specs.Syntax.{expr_of, type_of};

use crate::fault::{SourceFault, SourceFaultKind};
use crate::item::{Const, ItemKind, Items, Parameter, ParameterKind};
use crate::names::Names;
use crate::place::{Place, Symbol};
use crate::reader::attributes::Attributes;
use crate::reader::constants::is_wanting;
use crate::reader::cursor::{
    Cursor, expect, expect_comma, fault, is_done, is_word, next_kind, pass, take_group, take_word,
};
use crate::reader::definition::{Definition, Head, read_const};
use crate::reader::depth::most_nested;
use crate::reader::expressions::read_whole;
use crate::reader::generics::push_parameter;
use crate::reader::items::put_item;
use crate::reader::naming::take_name;
use crate::reader::signatures::add_result;
use crate::reader::types::read_type;
use crate::reader::visibility::Standing;
use crate::syntax::{Expr, Type};
use crate::tokens::keyword::Keyword;
use crate::tokens::token::{Bracket, TokenKind};
use std::alloc::Global;

/// Whether a token may stand before the `fn` of a function.
fn is_qualifier(cursor: &Cursor<'_>) -> bool
    ensures { result ≡ is_qualifier cursor.now }
{
    match next_kind(cursor) {
        Some(
            TokenKind::Text
            | TokenKind::Keyword(
                Keyword::Const | Keyword::Async | Keyword::Unsafe | Keyword::Extern,
            ),
        ) => true,
        _ => false,
    }
}

/// Passes over what may stand before the `fn` of a function.
#[tactic(auto, unfolding(crate::specs::Functions::qualifiers_passed), using(crate::proofs::FunctionTurns::more, crate::proofs::FunctionTurns::done))]
pub(crate) fn pass_qualifiers(cursor: &mut Cursor<'_>)
    ensures { cursor.new ≡ qualifiers_passed cursor.old }
{
    let turns = cursor.end.saturating_sub(cursor.at);
    for turn in 0..turns {
        if !is_qualifier(cursor) {
            return;
        }
        pass(cursor, 1);
    }
}

/// A head of this name, which stands here, with these parameters.
fn head_named(name: Symbol, at: Place, parameters: Vec<Parameter>) -> Head
    ensures { head_of result ≡ head_named (name, at) (map parameter_of parameters.items) }
{
    Head {
        name,
        at,
        lifetimes: 0,
        parameters,
    }
}

/// A function of this name, which stands here, as a constant that has no value.
fn function_named(alloc: Global, name: Symbol, at: Place) -> Definition
    ensures { definition_of result ≡ function_named (name, at) }
{
    let head = head_named(name, at, Vec::new(alloc));
    let kind = ItemKind::Const(Const {
        ty: Type::Function(Vec::new(alloc)),
        value: None,
        owner: None,
        is_function: true,
    });
    Definition { head, kind }
}

/// A parameter whose value a function is given: its name and its type.
#[tactic(auto, unfolding(crate::specs::Functions::value_parameter))]
fn read_value_parameter(
    names: &mut Names,
    cursor: &mut Cursor<'_>,
) -> Result<Parameter, SourceFault>
    ensures { Reads (λ one. (parameter_of one, cursor.new))
        (value_parameter cursor.old (texts names.old)) (texts names.new) result }
{
    let (name, at) = take_name(names, cursor)?;
    expect(cursor, b':', SourceFaultKind::ExpectedColon)?;
    let ty = read_type(names, cursor, most_nested())?;
    Ok(Parameter {
        name,
        at,
        may_be_unsized: false,
        kind: ParameterKind::Const(ty, None),
    })
}

/// The parameters that stand in parentheses.
#[tactic(auto, unfolding(crate::specs::Functions::value_parameters), using(crate::proofs::FunctionTurns::parameters_more, crate::proofs::FunctionTurns::parameters_done))]
fn read_value_parameters(
    names: &mut Names,
    inside: &mut Cursor<'_>,
) -> Result<Vec<Parameter>, SourceFault>
    ensures { Reads (λ all. map parameter_of all.items)
        (value_parameters inside.old (texts names.old)) (texts names.new) result }
{
    let mut all = Vec::new(names.alloc());
    let turns = inside.end.saturating_sub(inside.at);
    for turn in 0..turns {
        if is_done(inside) {
            return Ok(all);
        }
        let one = read_value_parameter(names, inside)?;
        push_parameter(&mut all, one)?;
        expect_comma(inside)?;
    }
    Ok(all)
}

/// The type of a function's result, where it is written.
fn read_result(names: &mut Names, cursor: &mut Cursor<'_>) -> Result<Type, SourceFault>
    ensures { Reads (λ ty. (type_of ty, cursor.new)) (result_type cursor.old (texts names.old)) (texts names.new) result }
{
    let mut all = Vec::new(names.alloc());
    add_result(names, cursor, &mut all, most_nested())?;
    Ok(Type::Function(all))
}

/// What the body of a function is worth that stands in braces.
#[tactic(auto, unfolding(crate::specs::Functions::body_read))]
fn read_body(names: &mut Names, cursor: &mut Cursor<'_>) -> Result<Expr, SourceFault>
    ensures { Reads (λ body. (expr_of body, cursor.new)) (body_read cursor.old (texts names.old)) (texts names.new) result }
{
    let mut body = *cursor;
    if take_group(cursor, Bracket::Curly).is_none() {
        return Err(fault(cursor, SourceFaultKind::ExpectedExpression));
    }
    body.end = cursor.at;
    read_whole(names, &mut body, most_nested())
}

/// The parameters of a function that stand in parentheses.
#[tactic(auto, unfolding(crate::specs::Functions::signature_read))]
fn read_signature(names: &mut Names, cursor: &mut Cursor<'_>) -> Result<Vec<Parameter>, SourceFault>
    ensures { Reads (λ all. (map parameter_of all.items, cursor.new))
        (signature_read cursor.old (texts names.old)) (texts names.new) result }
{
    let Some(mut inside) = take_group(cursor, Bracket::Round) else {
        return Err(fault(cursor, SourceFaultKind::ExpectedFields));
    };
    read_value_parameters(names, &mut inside)
}

/// A function of this name, as a constant of a type that has its result alone, and whose value is its body.
#[tactic(auto, unfolding(crate::specs::Functions::function_valued))]
fn read_valued(
    names: &mut Names,
    name: Symbol,
    at: Place,
    cursor: &mut Cursor<'_>,
) -> Result<Definition, SourceFault>
    ensures { Reads (λ one. definition_of one) (function_valued (name, at) cursor.old (texts names.old)) (texts names.new) result }
{
    let parameters = read_signature(names, cursor)?;
    let ty = read_result(names, cursor)?;
    let body = read_body(names, cursor)?;
    let kind = ItemKind::Const(Const {
        ty,
        value: Some(body),
        owner: None,
        is_function: true,
    });
    Ok(Definition {
        head: head_named(name, at, parameters),
        kind,
    })
}

/// A function of this name, behind it: what can be read of one that constants may call, and of another one its name.
fn read_behind_name(
    names: &mut Names,
    name: Symbol,
    at: Place,
    is_valued: bool,
    cursor: &mut Cursor<'_>,
) -> Result<Definition, SourceFault>
    ensures { Reads (λ one. definition_of one)
        (function_behind is_valued (name, at) cursor.old (texts names.old)) (texts names.new) result }
{
    if !is_valued {
        return Ok(function_named(names.alloc(), name, at));
    }
    match read_valued(names, name, at, cursor) {
        Ok(one) => Ok(one),
        Err(fault) => {
            if is_wanting(fault.kind) {
                Err(fault)
            } else {
                Ok(function_named(names.alloc(), name, at))
            }
        }
    }
}

/// A static of this name, which is next: one that stays as it is a constant, where it can be read, and another one its
/// name.
fn read_static_named(
    names: &mut Names,
    name: Symbol,
    at: Place,
    is_mutable: bool,
    cursor: &mut Cursor<'_>,
) -> Result<Definition, SourceFault>
    ensures { Reads (λ one. definition_of one)
        (static_named is_mutable (name, at) cursor.old (texts names.old)) (texts names.new) result }
{
    if is_mutable {
        return Ok(function_named(names.alloc(), name, at));
    }
    match read_const(names, cursor, None) {
        Ok(one) => Ok(one),
        Err(fault) => {
            if is_wanting(fault.kind) {
                Err(fault)
            } else {
                Ok(function_named(names.alloc(), name, at))
            }
        }
    }
}

/// Reads the static that is next, where one is. Nothing is passed over.
#[tactic(auto, unfolding(crate::specs::Functions::static_read))]
fn read_static(
    names: &mut Names,
    items: &mut Items,
    standing: Standing,
    said: &Attributes,
    cursor: &Cursor<'_>,
) -> Result<(), SourceFault>
    ensures kept { KeepsItems items.old items.new }
    ensures read { Reads (λ done. done) (static_read standing said.now cursor.now (texts names.old, items_as_read items.old))
        (texts names.new, items_as_read items.new) result }
{
    let mut ahead = *cursor;
    if !take_word(&mut ahead, Keyword::Static) {
        return Ok(());
    }
    let is_mutable = take_word(&mut ahead, Keyword::Mut);
    let mut behind = ahead;
    let (name, at) = take_name(names, &mut behind)?;
    let one = read_static_named(names, name, at, is_mutable, &mut ahead)?;
    put_item(items, standing, said, one)
}

/// Whether a function is next that constants may call: `const fn`, and nothing between.
#[tactic(auto, unfolding(crate::specs::Functions::is_valued))]
fn is_valued(cursor: &Cursor<'_>) -> bool
    ensures { result ≡ is_valued cursor.now }
{
    let mut behind_const = *cursor;
    pass(&mut behind_const, 1);
    is_word(cursor, Keyword::Const) && is_word(&behind_const, Keyword::Fn)
}

/// Reads the function or the static that is next, where one is: its name, and its value for constants, where it has one.
/// Nothing is passed over.
#[tactic(auto, unfolding(crate::specs::Functions::function_read))]
pub(crate) fn read_function(
    names: &mut Names,
    items: &mut Items,
    standing: Standing,
    said: &Attributes,
    cursor: &Cursor<'_>,
) -> Result<(), SourceFault>
    ensures kept { KeepsItems items.old items.new }
    ensures read { Reads (λ done. done) (function_read standing said.now cursor.now (texts names.old, items_as_read items.old))
        (texts names.new, items_as_read items.new) result }
{
    let mut ahead = *cursor;
    pass_qualifiers(&mut ahead);
    if !take_word(&mut ahead, Keyword::Fn) {
        return read_static(names, items, standing, said, cursor);
    }
    let (name, at) = take_name(names, &mut ahead)?;
    let one = read_behind_name(names, name, at, is_valued(cursor), &mut ahead)?;
    put_item(items, standing, said, one)
}
