//! Macros of a source that put attributes in front of the items of a call, and the items that stand in place of one.

ghost use Rattle.std.specs.Prelude.{◌≡◌, None, Some, IfErr, IfOk, if◌then◌else◌};
ghost use Rattle.rust_source.specs.Cursor.{group_passed};
ghost use Rattle.rust_source.specs.Growth.{KeepsItems};
ghost use Rattle.rust_source.specs.Having.{with_macro};
ghost use Rattle.rust_source.specs.Items.{items_as_read};
ghost use Rattle.rust_source.specs.Names.{texts};
ghost use Rattle.rust_source.specs.Reading.{Reads};
ghost use Rattle.rust_source.specs.Wrappers.{any_inside, behind_cfg, ends_rule, has_macro_use, head_of, is_cfg_of, is_macro_rules, is_use_of_modules, is_variable, is_variable_of, item_rule, call_alone, handing_of, handing_rule, handing_tried, macro_of, macro_read, only_rule, only_rule_within, repeated, repeats, rule_headed, rule_of, says_no_more, standing_items, standing_of, wrapped_call, wrapped_items, wrapping_by, wrapping_in, wrapping_of, wrapping_rule};

use crate::fault::{SourceFault, SourceFaultKind};
use crate::item::{Items, Macro, Wrapping};
use crate::names::Names;
use crate::place::{Place, Symbol};
use crate::reader::attributes::{Attributes, Rules, read_attributes};
use crate::reader::cfg_if::{is_predicate_alone, predicate_in};
use crate::reader::constants::is_wanting;
use crate::reader::cursor::{
    Cursor, is_done, is_named_next, is_next, is_pair, is_word, pass, take, take_group, take_pair,
};
use crate::reader::macro_scope::{MacroCall, last_macro, wrapping_meant};
use crate::reader::naming::{is_named, take_name, word_text};
use crate::reader::repr::asks;
use crate::reader::visibility::root_around;
use crate::target::CfgTarget;
use crate::tokens::keyword::Keyword;
use crate::tokens::token::Bracket;

/// Tokens that begin with an attribute of what stands around, `#![..]`.
#[derive(Clone, Copy)]
pub(crate) struct Headed<'a> {
    /// What stands in its brackets.
    pub attribute: Cursor<'a>,
    /// What stands behind it.
    pub behind: Cursor<'a>,
}

/// A macro's rule that matches items and repeats them behind attributes.
#[derive(Clone, Copy)]
pub(crate) struct WrappingRule<'a> {
    /// `$name:item`, for each item.
    pub variable: Cursor<'a>,
    /// What is written for each item: attributes and `$name`.
    pub written: Cursor<'a>,
    /// Whether `#![$name:meta]` stands before the items, and `#[cfg($name)]` before those attributes.
    pub takes_predicate: bool,
}

/// A macro's rule that matches items and hands them on, behind a predicate.
#[derive(Clone, Copy)]
pub(crate) struct HandingRule<'a> {
    /// What begins with the name of the macro that they are handed on to.
    pub through: Cursor<'a>,
    /// The predicate.
    pub predicate: Cursor<'a>,
}

/// A macro's rule that wraps items.
#[derive(Clone, Copy)]
pub(crate) enum MacroRule<'a> {
    Wrapping(WrappingRule<'a>),
    Handing(HandingRule<'a>),
}

/// The call of a macro that wraps items.
#[derive(Clone, Copy)]
pub(crate) struct WrappedCall<'a> {
    /// What stands in its braces.
    pub inside: Cursor<'a>,
    /// What the macro does with it.
    pub wrapping: Wrapping,
}

/// Where a macro's definition stands.
#[derive(Clone, Copy)]
pub(crate) struct MacroPlace {
    /// The module that it stands in, by its number.
    pub module: u32,
    /// Whether an attribute may rewrite it.
    pub is_rewritten: bool,
}

/// The tokens within brackets of any kind, where such a group is next; it is passed over.
#[tactic(auto, unfolding(crate::specs::Wrappers::any_inside))]
fn take_any<'a>(cursor: &mut Cursor<'a>) -> Option<Cursor<'a>>
    ensures inside { result ≡ any_inside cursor.old }
    ensures passed { cursor.new ≡ group_passed cursor.old result }
{
    if let Some(inside) = take_group(cursor, Bracket::Curly) {
        return Some(inside);
    }
    if let Some(inside) = take_group(cursor, Bracket::Round) {
        return Some(inside);
    }
    take_group(cursor, Bracket::Square)
}

/// What stands in `$( .. )*`, where that is all that is left.
#[tactic(auto, unfolding(crate::specs::Wrappers::repeated))]
fn repeated<'a>(cursor: &Cursor<'a>) -> Option<Cursor<'a>>
    ensures { result ≡ repeated cursor.now }
{
    let mut ahead = *cursor;
    if !take(&mut ahead, b'$') {
        return None;
    }
    let inside = take_group(&mut ahead, Bracket::Round)?;
    if take(&mut ahead, b'*') && is_done(&ahead) {
        Some(inside)
    } else {
        None
    }
}

/// Whether `$name:kind` is all that is left, of this kind.
#[tactic(auto, unfolding(crate::specs::Wrappers::is_variable_of))]
fn is_variable_of(cursor: &Cursor<'_>, of_kind: &str) -> bool
    ensures { result ≡ is_variable_of cursor.now of_kind.now }
{
    let mut name = *cursor;
    let mut colon = *cursor;
    let mut kind = *cursor;
    let mut behind = *cursor;
    pass(&mut name, 1);
    pass(&mut colon, 2);
    pass(&mut kind, 3);
    pass(&mut behind, 4);
    is_next(cursor, b'$')
        && !word_text(&name).is_empty()
        && is_next(&colon, b':')
        && is_named(&kind, of_kind)
        && is_done(&behind)
}

/// Whether `$` and this name is all that is left.
fn is_variable(cursor: &Cursor<'_>, name: &str) -> bool
    ensures { result ≡ is_variable cursor.now name.now }
{
    let mut own = *cursor;
    let mut behind = *cursor;
    pass(&mut own, 1);
    pass(&mut behind, 2);
    is_next(cursor, b'$') && word_text(&own) == name && is_done(&behind)
}

/// Whether nothing is left of a rule, or a `;`.
fn ends_rule(cursor: &Cursor<'_>) -> bool
    ensures { result ≡ ends_rule cursor.now }
{
    let mut behind = *cursor;
    pass(&mut behind, 1);
    is_done(cursor) || is_next(cursor, b';') && is_done(&behind)
}

/// Tokens that begin with `#![..]`, where they do.
#[tactic(auto, unfolding(crate::specs::Wrappers::head_of))]
fn head_of<'a>(cursor: &Cursor<'a>) -> Option<Headed<'a>>
    ensures { result ≡ head_of cursor.now }
{
    let mut mark = *cursor;
    let mut behind = *cursor;
    pass(&mut mark, 1);
    pass(&mut behind, 2);
    if !is_next(cursor, b'#') || !is_next(&mark, b'!') {
        return None;
    }
    let attribute = take_group(&mut behind, Bracket::Square)?;
    Some(Headed { attribute, behind })
}

/// Whether these brackets have `cfg($name)` alone, of the variable of this name.
fn is_cfg_of(name: &str, attribute: &Cursor<'_>) -> bool
    ensures { result ≡ is_cfg_of name.now (Some attribute.now) }
{
    match predicate_in(attribute) {
        Some(predicate) => is_variable(&predicate, name),
        None => false,
    }
}

/// What stands behind the `#[cfg($name)]` that is next, of the variable of this name.
#[tactic(auto, unfolding(crate::specs::Wrappers::behind_cfg))]
fn behind_cfg<'a>(name: &str, cursor: &Cursor<'a>) -> Option<Cursor<'a>>
    ensures { result ≡ behind_cfg name.now cursor.now }
{
    let mut ahead = *cursor;
    if !take(&mut ahead, b'#') {
        return None;
    }
    let attribute = take_group(&mut ahead, Bracket::Square)?;
    if is_cfg_of(name, &attribute) {
        Some(ahead)
    } else {
        None
    }
}

/// The rule of an item's variable, and of what is written for each item.
fn item_rule<'a>(
    variable: Cursor<'a>,
    written: Cursor<'a>,
    takes_predicate: bool,
) -> Option<WrappingRule<'a>>
    ensures { result ≡ item_rule takes_predicate (Some variable.entry) (Some written.entry) }
{
    if is_variable_of(&variable, "item") {
        Some(WrappingRule {
            variable,
            written,
            takes_predicate,
        })
    } else {
        None
    }
}

/// The rule that matches `#![$name:meta]` and items, and repeats this for each item.
#[tactic(auto, unfolding(crate::specs::Wrappers::rule_headed))]
fn rule_headed<'a>(head: &Headed<'a>, written: &Cursor<'a>) -> Option<WrappingRule<'a>>
    ensures { result ≡ rule_headed head.now written.now }
{
    if !is_variable_of(&head.attribute, "meta") {
        return None;
    }
    let mut name = head.attribute;
    pass(&mut name, 1);
    let variable = repeated(&head.behind)?;
    let rest = behind_cfg(word_text(&name), written)?;
    item_rule(variable, rest, true)
}

/// The rule that matches this, and repeats that for each item.
#[tactic(auto, unfolding(crate::specs::Wrappers::wrapping_rule))]
fn wrapping_rule<'a>(matched: &Cursor<'a>, written: &Cursor<'a>) -> Option<WrappingRule<'a>>
    ensures { result ≡ wrapping_rule matched.now written.now }
{
    match head_of(matched) {
        Some(head) => rule_headed(&head, written),
        None => {
            let variable = repeated(matched)?;
            item_rule(variable, *written, false)
        }
    }
}

/// What stands in the braces of the call of a macro that is all that is left.
#[tactic(auto, unfolding(crate::specs::Wrappers::call_alone))]
fn call_alone<'a>(written: &Cursor<'a>) -> Option<Cursor<'a>>
    ensures { result ≡ call_alone written.now }
{
    let mut mark = *written;
    let mut behind = *written;
    pass(&mut mark, 1);
    pass(&mut behind, 2);
    if !is_next(&mark, b'!') {
        return None;
    }
    let inside = take_group(&mut behind, Bracket::Curly)?;
    if is_done(&behind) { Some(inside) } else { None }
}

/// Whether all items of this variable follow, and nothing else.
fn repeats(rest: &Cursor<'_>, variable: &Cursor<'_>) -> bool
    ensures { result ≡ repeats rest.now variable.now }
{
    let mut name = *variable;
    pass(&mut name, 1);
    match repeated(rest) {
        Some(each) => is_variable(&each, word_text(&name)),
        None => false,
    }
}

/// The rule that matches this, and hands the items on by that.
#[tactic(auto, unfolding(crate::specs::Wrappers::handing_rule))]
fn handing_rule<'a>(matched: &Cursor<'a>, written: &Cursor<'a>) -> Option<HandingRule<'a>>
    ensures { result ≡ handing_rule matched.now written.now }
{
    let variable = repeated(matched)?;
    let inside = call_alone(written)?;
    let head = head_of(&inside)?;
    if is_variable_of(&variable, "item") && repeats(&head.behind, &variable) {
        Some(HandingRule {
            through: *written,
            predicate: head.attribute,
        })
    } else {
        None
    }
}

/// The rule that matches this and writes that, where it wraps items.
#[tactic(auto, unfolding(crate::specs::Wrappers::rule_of))]
fn rule_of<'a>(matched: &Cursor<'a>, written: &Cursor<'a>) -> Option<MacroRule<'a>>
    ensures { result ≡ rule_of matched.now written.now }
{
    match repeated(written) {
        Some(each) => {
            let rule = wrapping_rule(matched, &each)?;
            Some(MacroRule::Wrapping(rule))
        }
        None => {
            let rule = handing_rule(matched, written)?;
            Some(MacroRule::Handing(rule))
        }
    }
}

/// The rule that is all that is left, where it wraps items.
#[tactic(auto, unfolding(crate::specs::Wrappers::only_rule))]
fn only_rule<'a>(rules: &Cursor<'a>) -> Option<MacroRule<'a>>
    ensures { result ≡ only_rule rules.now }
{
    let mut ahead = *rules;
    let matched = take_any(&mut ahead)?;
    if !take_pair(&mut ahead, b'=', b'>') {
        return None;
    }
    let written = take_any(&mut ahead)?;
    if ends_rule(&ahead) {
        rule_of(&matched, &written)
    } else {
        None
    }
}

/// Whether attributes say nothing but whether a `cfg` holds.
fn says_no_more(said: &Attributes) -> bool
    ensures { result ≡ says_no_more said.now }
{
    !(asks(&said.repr)
        || said.derives_copy
        || said.has_helpers
        || said.valid_range.is_some()
        || said.unknown.is_some()
        || said.path.is_some()
        || said.uses_macros)
}

/// How a rule wraps items behind these attributes, where they say no more and the item's variable follows.
fn wrapping_by(rule: &WrappingRule<'_>, said: &Attributes, behind: &Cursor<'_>) -> Option<Wrapping>
    ensures { result ≡ wrapping_by rule.now said.now behind.now }
{
    let mut name = rule.variable;
    pass(&mut name, 1);
    if says_no_more(said) && is_variable(behind, word_text(&name)) {
        Some(Wrapping {
            stands: said.holds,
            takes_predicate: rule.takes_predicate,
            through: None,
        })
    } else {
        None
    }
}

/// How a rule wraps items. None where its attributes can't be read or say more.
fn read_wrapping(
    rules: &Rules<'_>,
    names: &mut Names,
    unknown: &mut Vec<Symbol>,
    rule: &WrappingRule<'_>,
) -> Result<Option<Wrapping>, SourceFault>
    ensures { Reads (λ found. found) (wrapping_of rules.now rule.now (texts names.old, unknown.old.items))
        (texts names.new, unknown.new.items) result }
{
    let mut written = rule.written;
    match read_attributes(names, unknown, rules, &mut written) {
        Ok(said) => Ok(wrapping_by(rule, &said, &written)),
        Err(fault) => {
            if is_wanting(fault.kind) {
                Err(fault)
            } else {
                Ok(None)
            }
        }
    }
}

/// How a rule hands items on.
#[tactic(auto, unfolding(crate::specs::Wrappers::handing_of))]
fn read_handing(
    rules: &Rules<'_>,
    names: &mut Names,
    unknown: &mut Vec<Symbol>,
    rule: &HandingRule<'_>,
) -> Result<Wrapping, SourceFault>
    ensures { Reads (λ found. found) (handing_of rules.now rule.now (texts names.old, unknown.old.items))
        (texts names.new, unknown.new.items) result }
{
    let mut ahead = rule.through;
    let (through, _at) = take_name(names, &mut ahead)?;
    let stands = is_predicate_alone(names, unknown, &rules.target, &rule.predicate)?;
    Ok(Wrapping {
        stands,
        takes_predicate: false,
        through: Some(through),
    })
}

/// The same. None where its name or its predicate can't be read.
fn try_handing(
    rules: &Rules<'_>,
    names: &mut Names,
    unknown: &mut Vec<Symbol>,
    rule: &HandingRule<'_>,
) -> Result<Option<Wrapping>, SourceFault>
    ensures { Reads (λ found. found) (handing_tried rules.now rule.now (texts names.old, unknown.old.items))
        (texts names.new, unknown.new.items) result }
{
    match read_handing(rules, names, unknown, rule) {
        Ok(wrapping) => Ok(Some(wrapping)),
        Err(fault) => {
            if is_wanting(fault.kind) {
                Err(fault)
            } else {
                Ok(None)
            }
        }
    }
}

/// How a macro wraps the items of its calls, whose rules are next in brackets. None where it isn't known.
fn read_rules(
    rules: &Rules<'_>,
    names: &mut Names,
    unknown: &mut Vec<Symbol>,
    cursor: &Cursor<'_>,
) -> Result<Option<Wrapping>, SourceFault>
    ensures { Reads (λ found. found)
        (wrapping_in rules.now (only_rule_within (any_inside cursor.now)) (texts names.old, unknown.old.items))
        (texts names.new, unknown.new.items) result }
{
    let mut ahead = *cursor;
    let Some(inside) = take_any(&mut ahead) else {
        return Ok(None);
    };
    match only_rule(&inside) {
        Some(MacroRule::Wrapping(rule)) => read_wrapping(rules, names, unknown, &rule),
        Some(MacroRule::Handing(rule)) => try_handing(rules, names, unknown, &rule),
        None => Ok(None),
    }
}

/// Whether the definition of a macro is next.
#[tactic(auto, unfolding(crate::specs::Wrappers::is_macro_rules))]
fn is_macro_rules(cursor: &Cursor<'_>) -> bool
    ensures { result ≡ is_macro_rules cursor.now }
{
    let mut behind = *cursor;
    pass(&mut behind, 1);
    word_text(cursor) == "macro_rules" && is_next(&behind, b'!') && is_named_next(&behind)
}

/// How a macro wraps items. None where it may be rewritten.
fn unless_rewritten(place: MacroPlace, wrapping: Option<Wrapping>) -> Option<Wrapping>
    ensures { result ≡ (if place.is_rewritten then None else wrapping) }
{
    if place.is_rewritten { None } else { wrapping }
}

/// A macro of this name and place. Of one that isn't the first of its name nothing more is known.
fn macro_of(items: &Items, module: u32, named: (Symbol, Place), wrapping: Option<Wrapping>) -> Macro
    ensures { result ≡ macro_of (items_as_read items.now) «module» named wrapping }
{
    let (name, at) = named;
    let root = root_around(&items.modules, module);
    let is_first = last_macro(items, root, name).is_none();
    Macro {
        name,
        at,
        module,
        wrapping: if is_first { wrapping } else { None },
    }
}

/// Puts a macro behind the others.
fn put_macro(items: &mut Items, one: Macro) -> Result<(), SourceFault>
    ensures kept { KeepsItems items.old items.new }
    ensures ok { IfOk result
        (λ _. items_as_read items.new ≡ with_macro one (items_as_read items.old)) }
    ensures err { IfErr result (λ fault. fault.kind ≡ SourceFaultKind.OutOfMemory) }
{
    items.macros.push(one)?;
    Ok(())
}

/// Keeps the macro whose definition is next, behind its attributes, if one is. Nothing is passed over.
#[tactic(auto, unfolding(crate::specs::Wrappers::macro_read))]
pub(crate) fn read_macro(
    rules: &Rules<'_>,
    names: &mut Names,
    items: &mut Items,
    place: MacroPlace,
    cursor: &Cursor<'_>,
) -> Result<(), SourceFault>
    ensures kept { KeepsItems items.old items.new }
    ensures read { Reads (λ done. done) (macro_read rules.now place.«module» place.is_rewritten cursor.now (texts names.old, items_as_read items.old))
        (texts names.new, items_as_read items.new) result }
{
    if !is_macro_rules(cursor) {
        return Ok(());
    }
    let mut ahead = *cursor;
    pass(&mut ahead, 2);
    let named = take_name(names, &mut ahead)?;
    let found = read_rules(rules, names, &mut items.unknown_cfgs, &ahead)?;
    let wrapping = unless_rewritten(place, found);
    let one = macro_of(items, place.module, named, wrapping);
    put_macro(items, one)
}

/// Whether `macro_use` is next that isn't right at an `extern`: the macros of a module may stand in those around it.
#[tactic(auto, unfolding(crate::specs::Wrappers::is_use_of_modules))]
fn is_use_of_modules(cursor: &Cursor<'_>) -> bool
    ensures { result ≡ is_use_of_modules cursor.now }
{
    if word_text(cursor) != "macro_use" {
        return false;
    }
    let mut behind = *cursor;
    pass(&mut behind, 2);
    !is_word(&behind, Keyword::Extern)
}

/// Whether the macros of a module may stand in those around it, of these tokens.
#[tactic(auto, unfolding(crate::specs::Wrappers::has_macro_use), using(crate::proofs::WrapperTurns::use_more, crate::proofs::WrapperTurns::use_done))]
pub(crate) fn has_macro_use(tokens: &Cursor<'_>) -> bool
    ensures { result ≡ has_macro_use tokens.now }
{
    let mut ahead = *tokens;
    let turns = ahead.end.saturating_sub(ahead.at);
    for turn in 0..turns {
        if is_use_of_modules(&ahead) {
            return true;
        }
        pass(&mut ahead, 1);
    }
    false
}

/// The call that is next, of a macro of the source that wraps items. None where it isn't known to be one.
#[tactic(auto, unfolding(crate::specs::Wrappers::wrapped_call))]
fn wrapped_call<'a>(
    rules: &Rules<'_>,
    names: &Names,
    items: &Items,
    module: u32,
    cursor: &Cursor<'a>,
) -> Option<WrappedCall<'a>>
    ensures { result ≡ wrapped_call rules.now «module» cursor.now (texts names.now, items_as_read items.now) }
{
    let mut ahead = *cursor;
    pass(&mut ahead, 1);
    if !is_next(&ahead, b'!') {
        return None;
    }
    let mut braces = *cursor;
    pass(&mut braces, 2);
    let inside = take_group(&mut braces, Bracket::Curly)?;
    let name = names.find(word_text(cursor))?;
    let call = MacroCall {
        items,
        module,
        at: *cursor,
        has_macro_use: rules.has_macro_use,
    };
    let wrapping = wrapping_meant(&call, name)?;
    Some(WrappedCall { inside, wrapping })
}

/// These items, or none of them.
fn standing_of<'a>(inside: Cursor<'a>, stands: bool) -> Cursor<'a>
    ensures { result ≡ standing_of inside.entry stands }
{
    let mut items = inside;
    if !stands {
        items.at = items.end;
    }
    items
}

/// The items that stand in place of a call. None where a predicate has to stand before them and doesn't.
#[tactic(auto, unfolding(crate::specs::Wrappers::standing_items))]
fn standing_items<'a>(
    names: &mut Names,
    unknown: &mut Vec<Symbol>,
    target: &CfgTarget<'_>,
    call: &WrappedCall<'a>,
) -> Result<Option<Cursor<'a>>, SourceFault>
    ensures { Reads (λ found. found) (standing_items target.now call.now (texts names.old, unknown.old.items))
        (texts names.new, unknown.new.items) result }
{
    let wrapping = call.wrapping;
    if !wrapping.takes_predicate {
        return Ok(Some(standing_of(call.inside, wrapping.stands)));
    }
    match head_of(&call.inside) {
        Some(head) => {
            let holds = is_predicate_alone(names, unknown, target, &head.attribute)?;
            Ok(Some(standing_of(head.behind, wrapping.stands && holds)))
        }
        None => Ok(None),
    }
}

/// The items that stand in place of the call that is next, by a macro of the source. None where they aren't known.
#[tactic(auto, unfolding(crate::specs::Wrappers::wrapped_items))]
pub(crate) fn wrapped_items<'a>(
    rules: &Rules<'_>,
    names: &mut Names,
    items: &mut Items,
    module: u32,
    cursor: &Cursor<'a>,
) -> Result<Option<Cursor<'a>>, SourceFault>
    ensures kept { KeepsItems items.old items.new }
    ensures read { Reads (λ found. found) (wrapped_items rules.now «module» cursor.now (texts names.old, items_as_read items.old))
        (texts names.new, items_as_read items.new) result }
{
    match wrapped_call(rules, names, items, module, cursor) {
        Some(call) => standing_items(names, &mut items.unknown_cfgs, &rules.target, &call),
        None => Ok(None),
    }
}
