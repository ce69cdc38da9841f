//! Attributes of items, fields and variants.

ghost use Rattle.std.specs.Prelude.{◌≡◌};
ghost use Rattle.rust_source.specs.Attributes.{attribute_read, attribute_with, attributes_read, attributes_said, begins_attribute, cfg_said, expanded, expanded_all, faulty, judged_by, listless_said, named_said, none_said, number_and_comma, one_attribute, part_attributes, part_judged, range_read, repr_said, simple_said, unknown_with, value_next, with_macro_use, with_path};
ghost use Rattle.rust_source.specs.Names.{texts};
ghost use Rattle.rust_source.specs.Reading.{Reads, read_as};
ghost use Rattle.rust_source.specs.Repr.{with_repr};

use crate::fault::{SourceFault, SourceFaultKind};
use crate::item::Repr;
use crate::names::Names;
use crate::place::{Place, Symbol};
use crate::reader::cfg::is_predicate;
use crate::reader::cursor::{
    Cursor, expect, expect_comma, fault, is_done, is_next, is_nth, nth, pass, place, take,
    take_group, take_until,
};
use crate::reader::depth::{most_nested, one_level_deeper};
use crate::reader::known_attributes::{is_known, names_copy, names_other_trait};
use crate::reader::literals::Number;
use crate::reader::naming::word_text;
use crate::reader::repr::{NOTHING, asks, next_number, refuse_repr, with_repr};
use crate::target::CfgTarget;
use crate::tokens::token::{Bracket, Token, TokenKind};

/// What is asked of `cfg`, and whether the source may use what only the standard library may.
#[derive(Clone, Copy)]
pub(crate) struct Rules<'a> {
    pub target: CfgTarget<'a>,
    pub is_trusted: bool,
    /// Whether a module may stand around the one that is read: around the root of a crate none does.
    pub has_outer: bool,
    /// Whether `cfg_if` may be something else in the source than the macro of the crate `cfg-if`.
    pub has_own_cfg_if: bool,
    /// Whether the macros of a module may stand in those around it, by `macro_use`.
    pub has_macro_use: bool,
}

/// What attributes say.
#[derive(Clone, Copy)]
pub(crate) struct Attributes {
    /// Whether each `cfg` holds.
    pub holds: bool,
    pub repr: Repr,
    pub valid_range: Option<(u128, u128)>,
    /// The first fault of a `repr`, which what a `cfg` takes out doesn't have.
    pub fault: Option<SourceFault>,
    /// Whether a `derive` of `Copy` is among them.
    pub derives_copy: bool,
    /// Whether a `derive` may bring in attributes of its own.
    pub has_helpers: bool,
    /// Where the first attribute stands that isn't known, and that no `derive` before it may have brought in.
    pub unknown: Option<Place>,
    /// The string that the first `path = ".."` says, which names the file or the folder of a module.
    pub path: Option<Token>,
    /// Whether `macro_use` is among them, by which the macros of a module are those of the one around it, too.
    pub uses_macros: bool,
}

/// Where an attribute is read.
#[derive(Clone, Copy)]
struct AttributeContext {
    /// What the attributes before it say.
    said: Attributes,
    /// How many attributes may stand in one another there.
    depth_left: u32,
}

/// What no attributes say.
const NONE: Attributes = Attributes {
    holds: true,
    repr: NOTHING,
    valid_range: None,
    fault: None,
    derives_copy: false,
    has_helpers: false,
    unknown: None,
    path: None,
    uses_macros: false,
};

/// The attribute that says which numbers a scalar may be.
const VALID_RANGE: &str = "rustc_layout_scalar_valid_range";

/// What no attributes say.
#[tactic(auto, unfolding(crate::specs::Attributes::none_said))]
fn none_said() -> Attributes
    ensures { result ≡ none_said }
{
    NONE
}

/// The number that is next, without a suffix; it is passed over, with a `,`.
#[tactic(auto, unfolding(crate::specs::Attributes::number_and_comma))]
fn take_number(cursor: &mut Cursor<'_>) -> Result<u128, SourceFault>
    ensures { read_as (λ number. (number, cursor.new)) result ≡ number_and_comma cursor.old }
{
    match next_number(cursor) {
        Number::Integer(value, None) => {
            pass(cursor, 1);
            expect_comma(cursor)?;
            Ok(value)
        }
        _ => Err(fault(cursor, SourceFaultKind::BadAttribute)),
    }
}

/// The first and the last number of a valid range.
#[tactic(auto, unfolding(crate::specs::Attributes::range_read))]
fn range_in(inside: &mut Cursor<'_>) -> Result<(u128, u128), SourceFault>
    ensures { result ≡ range_read inside.old }
{
    let start = take_number(inside)?;
    let end = take_number(inside)?;
    if is_done(inside) {
        Ok((start, end))
    } else {
        Err(fault(inside, SourceFaultKind::BadAttribute))
    }
}

/// What is said with the `cfg` whose predicate is next.
#[tactic(auto, unfolding(crate::specs::Attributes::cfg_said))]
fn read_cfg(
    names: &mut Names,
    unknown: &mut Vec<Symbol>,
    rules: &Rules<'_>,
    before: Attributes,
    inside: &mut Cursor<'_>,
) -> Result<Attributes, SourceFault>
    ensures { Reads (λ said. said) (cfg_said rules.now before inside.old (texts names.old, unknown.old.items))
        (texts names.new, unknown.new.items) result }
{
    let mut said = before;
    let holds = is_predicate(names, unknown, &rules.target, inside, most_nested())?;
    said.holds = holds;
    expect_comma(inside)?;
    if is_done(inside) {
        Ok(said)
    } else {
        Err(fault(inside, SourceFaultKind::BadCfg))
    }
}

/// What is said with a fault that is reported where the item is there.
fn faulty(before: Attributes, fault: SourceFault) -> Attributes
    ensures { result ≡ faulty before fault }
{
    let mut said = before;
    if said.fault.is_none() {
        said.fault = Some(fault);
    }
    said
}

/// What is said with a `repr`, whose list is next, or with its fault.
fn with_repr_said(before: Attributes, inside: &mut Cursor<'_>) -> Attributes
    ensures { result ≡ repr_said before (with_repr before.repr inside.old) }
{
    let mut said = before;
    match with_repr(said.repr, inside) {
        Ok(repr) => {
            said.repr = repr;
            said
        }
        Err(fault) => faulty(said, fault),
    }
}

/// The string behind the name of an attribute that is next, and `=`.
fn value_next(cursor: &Cursor<'_>) -> Option<Token>
    ensures { result ≡ value_next cursor.now }
{
    if !is_nth(cursor, 1, b'=') {
        return None;
    }
    let token = nth(cursor, 2)?;
    match token.kind {
        TokenKind::Text => Some(token),
        _ => None,
    }
}

/// What is said with the `path` that is next, unless one stands before.
fn with_path(before: Attributes, cursor: &Cursor<'_>) -> Attributes
    ensures { result ≡ with_path before cursor.now }
{
    let mut said = before;
    if said.path.is_none() {
        said.path = value_next(cursor);
    }
    said
}

/// What is said with an attribute of this name, which may be `macro_use`.
fn with_macro_use(before: Attributes, name: &str) -> Attributes
    ensures { result ≡ with_macro_use before name.now }
{
    let mut said = before;
    said.uses_macros = said.uses_macros || name == "macro_use";
    said
}

/// What the attribute says that is next and has no list in parentheses.
#[tactic(auto, unfolding(crate::specs::Attributes::listless_said))]
fn read_listless(before: Attributes, cursor: &Cursor<'_>) -> Result<Attributes, SourceFault>
    ensures { result ≡ listless_said before cursor.now }
{
    let name = word_text(cursor);
    if name == "cfg" || name == "cfg_attr" {
        return Err(fault(cursor, SourceFaultKind::BadCfg));
    }
    if name == "repr" {
        return Ok(faulty(before, fault(cursor, SourceFaultKind::BadRepr)));
    }
    if name == "path" {
        return Ok(with_path(before, cursor));
    }
    Ok(with_macro_use(before, name))
}

/// Whether an attribute may begin with what is next.
fn begins_attribute(cursor: &Cursor<'_>) -> bool
    ensures { result ≡ begins_attribute cursor.now }
{
    !word_text(cursor).is_empty() || is_next(cursor, b':')
}

/// What an attribute of this name says that has no predicates within it, added to what those before it say.
#[tactic(auto, unfolding(crate::specs::Attributes::simple_said))]
fn read_simple(
    rules: &Rules<'_>,
    before: Attributes,
    name: &str,
    inside: &mut Cursor<'_>,
) -> Result<Attributes, SourceFault>
    ensures { result ≡ simple_said rules.now before name.now inside.old }
{
    let mut said = before;
    if name == "repr" {
        return Ok(with_repr_said(said, inside));
    }
    if name == VALID_RANGE && rules.is_trusted {
        said.valid_range = Some(range_in(inside)?);
        return Ok(said);
    }
    if name == "derive" {
        said.derives_copy = said.derives_copy || names_copy(inside);
        said.has_helpers = said.has_helpers || names_other_trait(inside);
    }
    Ok(said)
}

/// Where the first attribute stands that isn't known, with the one that is next.
fn unknown_with(before: &Attributes, cursor: &Cursor<'_>) -> Option<Place>
    ensures { result ≡ unknown_with before.now cursor.now }
{
    if before.unknown.is_some() || before.has_helpers || is_known(word_text(cursor)) {
        before.unknown
    } else {
        Some(place(cursor))
    }
}

/// What is said with the name of the attribute that is next.
fn named_said(before: Attributes, cursor: &Cursor<'_>) -> Attributes
    ensures { result ≡ named_said before cursor.now }
{
    let mut said = before;
    said.unknown = unknown_with(&before, cursor);
    said
}

/// What attributes separated by `,` say, added to what those before them say.
#[cycle(attributes)]
#[tactic(auto, unfolding(crate::specs::Attributes::expanded_all), using(crate::proofs::ItemTurns::expanded_more, crate::proofs::ItemTurns::expanded_done))]
fn read_list(
    names: &mut Names,
    unknown: &mut Vec<Symbol>,
    rules: &Rules<'_>,
    context: AttributeContext,
    inside: &mut Cursor<'_>,
) -> Result<Attributes, SourceFault>
    ensures { Reads (λ said. said)
        (expanded_all rules.now (attribute_read rules.now context.depth_left) context.said inside.old (texts names.old, unknown.old.items))
        (texts names.new, unknown.new.items) result }
{
    let mut said = context.said;
    let turns = inside.end.saturating_sub(inside.at);
    for turn in 0..turns {
        if is_done(inside) {
            return Ok(said);
        }
        let mut one = take_until(inside, b',');
        let inner = AttributeContext {
            said,
            depth_left: context.depth_left,
        };
        said = read_attribute(names, unknown, rules, inner, &mut one)?;
        expect_comma(inside)?;
    }
    Ok(said)
}

/// What the attributes behind the predicate of a `cfg_attr` say, where the predicate holds.
#[cycle(attributes)]
#[tactic(auto, unfolding(crate::specs::Attributes::expanded))]
fn read_expanded(
    names: &mut Names,
    unknown: &mut Vec<Symbol>,
    rules: &Rules<'_>,
    context: AttributeContext,
    inside: &mut Cursor<'_>,
) -> Result<Attributes, SourceFault>
    ensures { Reads (λ said. said)
        (expanded rules.now (attribute_read rules.now context.depth_left) context.said inside.old (texts names.old, unknown.old.items))
        (texts names.new, unknown.new.items) result }
{
    let holds = is_predicate(names, unknown, &rules.target, inside, most_nested())?;
    expect(inside, b',', SourceFaultKind::ExpectedComma)?;
    if holds {
        read_list(names, unknown, rules, context, inside)
    } else {
        Ok(context.said)
    }
}

/// What one attribute says, added to what those before it say.
#[cycle(attributes)]
#[tactic(auto, unfolding(crate::specs::Attributes::attribute_with))]
fn read_one_attribute(
    names: &mut Names,
    unknown: &mut Vec<Symbol>,
    rules: &Rules<'_>,
    context: AttributeContext,
    cursor: &mut Cursor<'_>,
) -> Result<Attributes, SourceFault>
    ensures { Reads (λ said. said)
        (attribute_with rules.now (attribute_read rules.now context.depth_left) context.said cursor.old (texts names.old, unknown.old.items))
        (texts names.new, unknown.new.items) result }
{
    if !context.said.holds {
        return Ok(context.said);
    }
    if !begins_attribute(cursor) {
        return Err(fault(cursor, SourceFaultKind::BadAttribute));
    }
    let start = *cursor;
    let name = word_text(cursor);
    let said = named_said(context.said, cursor);
    pass(cursor, 1);
    let Some(mut inside) = take_group(cursor, Bracket::Round) else {
        return read_listless(said, &start);
    };
    if !is_done(cursor) {
        return Err(fault(cursor, SourceFaultKind::BadAttribute));
    }
    if name == "cfg_attr" {
        let inner = AttributeContext {
            said,
            depth_left: context.depth_left,
        };
        read_expanded(names, unknown, rules, inner, &mut inside)
    } else if name == "cfg" {
        read_cfg(names, unknown, rules, said, &mut inside)
    } else {
        read_simple(rules, said, name, &mut inside)
    }
}

/// What an attribute says, added to what those before it say.
#[cycle(attributes)]
#[tactic(auto, using(crate::proofs::ItemTurns::attribute_less, crate::proofs::ItemTurns::attribute_none))]
fn read_attribute(
    names: &mut Names,
    unknown: &mut Vec<Symbol>,
    rules: &Rules<'_>,
    context: AttributeContext,
    cursor: &mut Cursor<'_>,
) -> Result<Attributes, SourceFault>
    ensures { Reads (λ said. said) (attribute_read rules.now context.depth_left context.said cursor.old (texts names.old, unknown.old.items))
        (texts names.new, unknown.new.items) result }
{
    let inner = AttributeContext {
        said: context.said,
        depth_left: one_level_deeper(cursor, context.depth_left)?,
    };
    read_one_attribute(names, unknown, rules, inner, cursor)
}

/// What the attribute says whose `#` stands before. One of the module around it (`#![..]`) says nothing here.
#[tactic(auto, unfolding(crate::specs::Attributes::one_attribute))]
fn read_one(
    names: &mut Names,
    unknown: &mut Vec<Symbol>,
    rules: &Rules<'_>,
    before: Attributes,
    cursor: &mut Cursor<'_>,
) -> Result<Attributes, SourceFault>
    ensures { Reads (λ said. (said, cursor.new)) (one_attribute rules.now before cursor.old (texts names.old, unknown.old.items))
        (texts names.new, unknown.new.items) result }
{
    let is_inner = take(cursor, b'!');
    let Some(mut inside) = take_group(cursor, Bracket::Square) else {
        return Err(fault(cursor, SourceFaultKind::BadAttribute));
    };
    if is_inner {
        return Ok(before);
    }
    let context = AttributeContext {
        said: before,
        depth_left: most_nested(),
    };
    read_attribute(names, unknown, rules, context, &mut inside)
}

/// What the attributes that are next say, whatever it is that they stand at.
#[tactic(auto, unfolding(crate::specs::Attributes::attributes_said), using(crate::proofs::ItemTurns::said_more, crate::proofs::ItemTurns::said_done))]
fn read_all_said(
    names: &mut Names,
    unknown: &mut Vec<Symbol>,
    rules: &Rules<'_>,
    cursor: &mut Cursor<'_>,
) -> Result<Attributes, SourceFault>
    ensures { Reads (λ said. (said, cursor.new)) (attributes_said rules.now cursor.old (texts names.old, unknown.old.items))
        (texts names.new, unknown.new.items) result }
{
    let mut said = none_said();
    let turns = cursor.end.saturating_sub(cursor.at);
    for turn in 0..turns {
        if !take(cursor, b'#') {
            return Ok(said);
        }
        said = read_one(names, unknown, rules, said, cursor)?;
    }
    Ok(said)
}

/// What attributes say, or their fault where what they stand at is there.
fn judged(said: Attributes) -> Result<Attributes, SourceFault>
    ensures { result ≡ judged_by said said.fault }
{
    match said.fault {
        Some(fault) if said.holds => Err(fault),
        _ => Ok(said),
    }
}

/// What the attributes that are next say.
#[tactic(auto, unfolding(crate::specs::Attributes::attributes_read))]
pub(crate) fn read_attributes(
    names: &mut Names,
    unknown: &mut Vec<Symbol>,
    rules: &Rules<'_>,
    cursor: &mut Cursor<'_>,
) -> Result<Attributes, SourceFault>
    ensures { Reads (λ said. (said, cursor.new)) (attributes_read rules.now cursor.old (texts names.old, unknown.old.items))
        (texts names.new, unknown.new.items) result }
{
    let said = read_all_said(names, unknown, rules, cursor)?;
    judged(said)
}

/// A fault where a field, a variant or a constant of a type that is there asks for something by `repr`.
fn refuse_part_repr(said: &Attributes) -> Result<(), SourceFault>
    ensures { result ≡ part_judged said.now }
{
    if said.holds && asks(&said.repr) {
        refuse_repr(&said.repr)
    } else {
        Ok(())
    }
}

/// What the attributes say that are next, of a field, a variant or a constant of a type.
#[tactic(auto, unfolding(crate::specs::Attributes::part_attributes))]
pub(crate) fn read_part_attributes(
    names: &mut Names,
    unknown: &mut Vec<Symbol>,
    rules: &Rules<'_>,
    cursor: &mut Cursor<'_>,
) -> Result<Attributes, SourceFault>
    ensures { Reads (λ said. (said, cursor.new)) (part_attributes rules.now cursor.old (texts names.old, unknown.old.items))
        (texts names.new, unknown.new.items) result }
{
    let said = read_attributes(names, unknown, rules, cursor)?;
    refuse_part_repr(&said)?;
    Ok(said)
}
