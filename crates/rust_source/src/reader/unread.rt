//! Items that can't be read: where they end, and which names they may have.

ghost use Rattle.std.specs.Prelude.{◌≡◌, IfErr, IfOk};
ghost use Rattle.rust_source.specs.Cursor.{next_kind};
ghost use Rattle.rust_source.specs.Growth.{KeepsItems};
ghost use Rattle.rust_source.specs.Items.{items_as_read, use_of};
ghost use Rattle.rust_source.specs.Names.{texts};
ghost use Rattle.rust_source.specs.Reading.{Reads};
ghost use Rattle.rust_source.specs.Unread.{all_attributes_passed, attribute_passed, begins_other, has_other, is_named_item, is_nameless, item_unread, lost_use, names_item, one_item, unread_name, with_unread, word_before_name};

use crate::fault::{SourceFault, SourceFaultKind};
use crate::item::{Items, Use};
use crate::names::Names;
use crate::place::Symbol;
use crate::reader::constants::is_wanting;
use crate::reader::cursor::{
    Cursor, is_named_next, is_next, is_word, next_kind, pass, pass_tree, take, take_group,
};
use crate::reader::definition::{is_constant, is_union};
use crate::reader::fields::pass_visibility;
use crate::reader::functions::pass_qualifiers;
use crate::reader::naming::take_name;
use crate::reader::passing::pass_item;
use crate::tokens::keyword::Keyword;
use crate::tokens::token::{Bracket, TokenKind};
use std::alloc::Global;

/// Passes over the attribute whose `#` is next, of the item that it stands at or of the module around it (`#![..]`).
fn pass_attribute(cursor: &mut Cursor<'_>)
    ensures { cursor.new ≡ attribute_passed cursor.old }
{
    pass(cursor, 1);
    let _ = take(cursor, b'!');
    let _ = take_group(cursor, Bracket::Square);
}

/// Passes over the attributes that are next.
#[tactic(auto, unfolding(crate::specs::Unread::all_attributes_passed), using(crate::proofs::UnreadTurns::more, crate::proofs::UnreadTurns::done))]
fn pass_all_attributes(cursor: &mut Cursor<'_>)
    ensures { cursor.new ≡ all_attributes_passed cursor.old }
{
    let turns = cursor.end.saturating_sub(cursor.at);
    for turn in 0..turns {
        if !is_next(cursor, b'#') {
            return;
        }
        pass_attribute(cursor);
    }
}

/// The tokens of the item that is next: its attributes, its `pub`, and what stands up to its `;` or the end of its braces.
#[tactic(auto, unfolding(crate::specs::Unread::one_item))]
pub(crate) fn one_item<'a>(cursor: &Cursor<'a>) -> Cursor<'a>
    ensures { result ≡ one_item cursor.now }
{
    let mut whole = *cursor;
    pass_all_attributes(&mut whole);
    pass_visibility(&mut whole);
    pass_item(&mut whole);
    let mut one = *cursor;
    one.end = whole.at.min(cursor.end);
    one
}

/// Whether the name of an item stands behind a token.
fn names_item(cursor: &Cursor<'_>) -> bool
    ensures { result ≡ names_item (next_kind cursor.now) }
{
    match next_kind(cursor) {
        Some(
            TokenKind::Keyword(
                Keyword::Struct
                | Keyword::Enum
                | Keyword::Type
                | Keyword::Trait
                | Keyword::Mod
                | Keyword::Fn
                | Keyword::Static
                | Keyword::Const,
            ),
        ) => true,
        _ => false,
    }
}

/// Whether an item begins with the next token, at whichever place of another one it stands.
fn begins_other(cursor: &Cursor<'_>) -> bool
    ensures { result ≡ begins_other cursor.now }
{
    match next_kind(cursor) {
        Some(
            TokenKind::Keyword(
                Keyword::Pub
                | Keyword::Struct
                | Keyword::Enum
                | Keyword::Type
                | Keyword::Trait
                | Keyword::Mod
                | Keyword::Static
                | Keyword::Use,
            ),
        ) => true,
        _ => is_union(cursor),
    }
}

/// Whether another item begins among the tokens, outside of groups, as behind a `;` that is missing.
#[tactic(auto, unfolding(crate::specs::Unread::has_other), using(crate::proofs::UnreadTurns::other_more, crate::proofs::UnreadTurns::other_done))]
fn has_other(tokens: &Cursor<'_>) -> bool
    ensures { result ≡ has_other tokens.now }
{
    let mut ahead = *tokens;
    let turns = ahead.end.saturating_sub(ahead.at);
    for turn in 0..turns {
        if begins_other(&ahead) {
            return true;
        }
        pass_tree(&mut ahead);
    }
    false
}

/// Passes over what stands before the word behind which an item's name stands.
#[tactic(auto, unfolding(crate::specs::Unread::word_before_name))]
fn pass_before_name(item: &mut Cursor<'_>)
    ensures { item.new ≡ word_before_name item.old }
{
    pass_all_attributes(item);
    pass_visibility(item);
    if !is_constant(item) {
        pass_qualifiers(item);
    }
}

/// Whether what is next has no name of its own: an `impl`, or a `;` alone.
fn is_nameless(cursor: &Cursor<'_>) -> bool
    ensures { result ≡ is_nameless cursor.now }
{
    is_word(cursor, Keyword::Impl) || is_next(cursor, b';')
}

/// Whether the name of the one item that is next stands behind a word.
fn is_named_item(cursor: &Cursor<'_>) -> bool
    ensures { result ≡ is_named_item cursor.now }
{
    let mut behind = *cursor;
    pass(&mut behind, 1);
    is_named_next(cursor) && (names_item(cursor) || is_union(cursor)) && !has_other(&behind)
}

/// The name that an item may have which isn't read: the one that is written, if any, or any, which `_` says.
#[tactic(auto, unfolding(crate::specs::Unread::unread_name))]
fn read_unread_name(names: &mut Names, item: &Cursor<'_>) -> Result<Option<Symbol>, SourceFault>
    ensures { Reads (λ found. found) (unread_name item.now (texts names.old))
        (texts names.new) result }
{
    let mut ahead = *item;
    pass_before_name(&mut ahead);
    if is_nameless(&ahead) {
        return Ok(None);
    }
    if !is_named_item(&ahead) {
        return Ok(Some(Symbol::UNDERSCORE));
    }
    pass(&mut ahead, 1);
    match take_name(names, &mut ahead) {
        Ok((name, _at)) => Ok(Some(name)),
        Err(fault) => {
            if is_wanting(fault.kind) {
                Err(fault)
            } else {
                Ok(Some(Symbol::UNDERSCORE))
            }
        }
    }
}

/// A use of a name in a module that leads nowhere.
fn lost_use(alloc: Global, module: u32, name: Symbol) -> Use
    ensures { use_of result ≡ lost_use «module» name }
{
    Use {
        module,
        visible_in: None,
        is_global: false,
        path: Vec::new(alloc),
        name: Some(name),
        is_glob: false,
    }
}

/// Keeps the fault of an item in a module that isn't read, and lets the name lead nowhere that it may have.
pub(crate) fn put_unread(
    alloc: Global,
    items: &mut Items,
    module: u32,
    name: Option<Symbol>,
    fault: SourceFault,
) -> Result<(), SourceFault>
    ensures kept { KeepsItems items.old items.new }
    ensures ok { IfOk result (λ _.
        items_as_read items.new ≡ with_unread «module» fault name (items_as_read items.old)) }
    ensures err { IfErr result (λ wanting. wanting.kind ≡ SourceFaultKind.OutOfMemory) }
{
    items.unread.push(fault)?;
    if let Some(name) = name {
        items.uses.push(lost_use(alloc, module, name))?;
    }
    Ok(())
}

/// Passes over an item that can't be read, of these tokens, and keeps its fault. Fails for want of memory alone.
#[tactic(auto, unfolding(crate::specs::Unread::item_unread))]
pub(crate) fn pass_unread(
    names: &mut Names,
    items: &mut Items,
    module: u32,
    item: &Cursor<'_>,
    fault: SourceFault,
) -> Result<(), SourceFault>
    ensures kept { KeepsItems items.old items.new }
    ensures read { Reads (λ done. done) (item_unread «module» item.now fault (texts names.old, items_as_read items.old))
        (texts names.new, items_as_read items.new) result }
{
    let name = read_unread_name(names, item)?;
    put_unread(names.alloc(), items, module, name, fault)
}
