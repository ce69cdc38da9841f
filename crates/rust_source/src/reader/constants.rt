//! Constants of types, in `impl` blocks that have no parameters and implement no trait.

ghost use Rattle.std.specs.Prelude.{◌≡◌, IfErr, IfOk};
ghost use Rattle.std.specs.Option.{option_map};
ghost use Rattle.rust_source.specs.Constants.{is_wanting, lifetimes, lifetimes_in, own_const, own_constants, own_item, own_items, own_said, owner_read};
ghost use Rattle.rust_source.specs.Growth.{KeepsItems};
ghost use Rattle.rust_source.specs.Having.{next_owner, with_owner};
ghost use Rattle.rust_source.specs.Items.{items_as_read};
ghost use Rattle.rust_source.specs.Names.{texts};
ghost use Rattle.rust_source.specs.Reading.{Reads};
ghost use Rattle.rust_source.specs.Syntax.{path_as_read};

use crate::fault::{SourceFault, SourceFaultKind};
use crate::item::Items;
use crate::names::Names;
use crate::reader::attributes::{Attributes, Rules, read_part_attributes};
use crate::reader::cursor::{Cursor, is_done, next_kind, pass, take, take_group, take_word};
use crate::reader::definition::{is_constant, read_const};
use crate::reader::depth::most_nested;
use crate::reader::fields::pass_visibility;
use crate::reader::items::put_item;
use crate::reader::passing::pass_item;
use crate::reader::paths::read_path;
use crate::reader::types::begins_path;
use crate::reader::visibility::{Standing, read_visibility};
use crate::syntax::Path;
use crate::tokens::as_place;
use crate::tokens::keyword::Keyword;
use crate::tokens::token::{Bracket, TokenKind};

/// An `impl` block whose constants are read.
#[derive(Clone, Copy)]
struct ImplBlock {
    /// The module that it stands in, by its number.
    module: u32,
    /// The type whose own its items are, by its number.
    owner: u32,
}

/// A constant of an `impl` block: where it stands, and the type whose own it is, by its number.
#[derive(Clone, Copy)]
struct OwnConst {
    standing: Standing,
    owner: u32,
}

/// Whether memory was wanting.
pub(crate) fn is_wanting(kind: SourceFaultKind) -> bool
    ensures { result ≡ is_wanting kind }
{
    match kind {
        SourceFaultKind::OutOfMemory => true,
        _ => false,
    }
}

/// Passes over parameters up to their `>`, and says whether all are lifetimes.
#[tactic(auto, unfolding(crate::specs::Constants::lifetimes_in), using(crate::proofs::ModuleTurns::lifetimes_more, crate::proofs::ModuleTurns::lifetimes_done))]
fn pass_lifetimes_in(cursor: &mut Cursor<'_>) -> bool
    ensures { (result, cursor.new) ≡ lifetimes_in cursor.old }
{
    let turns = cursor.end.saturating_sub(cursor.at);
    for turn in 0..turns {
        if take(cursor, b'>') {
            return true;
        }
        match next_kind(cursor) {
            Some(TokenKind::Lifetime | TokenKind::Punct(_)) => pass(cursor, 1),
            _ => return false,
        }
    }
    false
}

/// Passes over the parameters of an `impl` block, and says whether all are lifetimes.
fn pass_lifetimes(cursor: &mut Cursor<'_>) -> bool
    ensures { (result, cursor.new) ≡ lifetimes cursor.old }
{
    if take(cursor, b'<') {
        pass_lifetimes_in(cursor)
    } else {
        true
    }
}

/// The type whose own the items of an `impl` block are, behind its `impl`. None where it has parameters, or its path
/// can't be read.
#[tactic(auto, unfolding(crate::specs::Constants::owner_read))]
fn take_owner(names: &mut Names, cursor: &mut Cursor<'_>) -> Result<Option<Path>, SourceFault>
    ensures { Reads (λ found. option_map (λ path. (path_as_read path, cursor.new)) found)
        (owner_read cursor.old (texts names.old)) (texts names.new) result }
{
    if !pass_lifetimes(cursor) || !begins_path(cursor) {
        return Ok(None);
    }
    match read_path(names, cursor, true, most_nested()) {
        Ok(path) => Ok(Some(path)),
        Err(fault) => {
            if is_wanting(fault.kind) {
                Err(fault)
            } else {
                Ok(None)
            }
        }
    }
}

/// Reads a constant of a type, behind its `const`. One that can't be read isn't reported.
#[tactic(auto, unfolding(crate::specs::Constants::own_const))]
fn read_own_const(
    names: &mut Names,
    items: &mut Items,
    place: OwnConst,
    said: &Attributes,
    cursor: &mut Cursor<'_>,
) -> Result<(), SourceFault>
    ensures kept { KeepsItems items.old items.new }
    ensures read { Reads (λ done. done) (own_const place.standing said.now place.owner cursor.old (texts names.old, items_as_read items.old))
        (texts names.new, items_as_read items.new) result }
{
    match read_const(names, cursor, Some(place.owner)) {
        Ok(one) => put_item(items, place.standing, said, one),
        Err(fault) => {
            if is_wanting(fault.kind) {
                Err(fault)
            } else {
                Ok(())
            }
        }
    }
}

/// Reads the next item of an `impl` block, behind its attributes, where it is a constant, and passes over it.
#[tactic(auto, unfolding(crate::specs::Constants::own_said))]
fn read_own_said(
    names: &mut Names,
    items: &mut Items,
    block: ImplBlock,
    said: &Attributes,
    inside: &mut Cursor<'_>,
) -> Result<(), SourceFault>
    ensures kept { KeepsItems items.old items.new }
    ensures read { Reads (λ _. inside.new) (own_said block.«module» said.now block.owner inside.old (texts names.old, items_as_read items.old))
        (texts names.new, items_as_read items.new) result }
{
    let module = block.module;
    let visible_in = read_visibility(names, &items.modules, module, inside)?;
    let place = OwnConst {
        standing: Standing { module, visible_in },
        owner: block.owner,
    };
    let mut ahead = *inside;
    pass_item(inside);
    if is_constant(&ahead) {
        pass(&mut ahead, 1);
        return read_own_const(names, items, place, said, &mut ahead);
    }
    Ok(())
}

/// Reads the next item of an `impl` block, where it is a constant, and passes over it.
#[tactic(auto, unfolding(crate::specs::Constants::own_item))]
fn read_own_item(
    rules: &Rules<'_>,
    names: &mut Names,
    items: &mut Items,
    block: ImplBlock,
    inside: &mut Cursor<'_>,
) -> Result<(), SourceFault>
    ensures kept { KeepsItems items.old items.new }
    ensures read { Reads (λ _. inside.new) (own_item rules.now block.«module» block.owner inside.old (texts names.old, items_as_read items.old))
        (texts names.new, items_as_read items.new) result }
{
    let said = read_part_attributes(names, &mut items.unknown_cfgs, rules, inside)?;
    if said.holds {
        return read_own_said(names, items, block, &said, inside);
    }
    pass_visibility(inside);
    pass_item(inside);
    Ok(())
}

/// Reads the constants within an `impl` block.
#[tactic(auto, unfolding(crate::specs::Constants::own_items), using(crate::proofs::ModuleTurns::own_more, crate::proofs::ModuleTurns::own_done))]
fn read_own_items(
    rules: &Rules<'_>,
    names: &mut Names,
    items: &mut Items,
    block: ImplBlock,
    inside: &mut Cursor<'_>,
) -> Result<(), SourceFault>
    ensures kept { KeepsItems items.old items.new }
    ensures read { Reads (λ done. done) (own_items rules.now block.«module» block.owner inside.old (texts names.old, items_as_read items.old))
        (texts names.new, items_as_read items.new) result }
{
    let turns = inside.end.saturating_sub(inside.at);
    for turn in 0..turns {
        if is_done(inside) {
            return Ok(());
        }
        read_own_item(rules, names, items, block, inside)?;
    }
    Ok(())
}

/// Puts a type behind those that have constants of their own, and is its number.
#[tactic(auto, using(std::proofs::lemmas::Grind::common_steps))]
fn put_owner(items: &mut Items, path: Path) -> Result<u32, SourceFault>
    ensures kept { KeepsItems items.old items.new }
    ensures number { IfOk result (λ owner. owner ≡ next_owner (items_as_read items.old)) }
    ensures ok { IfOk result
        (λ _. items_as_read items.new ≡ with_owner (path_as_read path) (items_as_read items.old)) }
    ensures err { IfErr result (λ fault. fault.kind ≡ SourceFaultKind.OutOfMemory) }
{
    let owner = as_place(items.owners.len());
    items.owners.push(path)?;
    Ok(owner)
}

/// Reads the constants of an `impl` block, where one is next that has no parameters and implements no trait. Nothing is
/// passed over.
#[tactic(auto, unfolding(crate::specs::Constants::own_constants))]
pub(crate) fn read_own_constants(
    rules: &Rules<'_>,
    names: &mut Names,
    items: &mut Items,
    module: u32,
    cursor: &Cursor<'_>,
) -> Result<(), SourceFault>
    ensures kept { KeepsItems items.old items.new }
    ensures read { Reads (λ done. done) (own_constants rules.now «module» cursor.now (texts names.old, items_as_read items.old))
        (texts names.new, items_as_read items.new) result }
{
    let mut ahead = *cursor;
    if !take_word(&mut ahead, Keyword::Impl) {
        return Ok(());
    }
    let Some(path) = take_owner(names, &mut ahead)? else {
        return Ok(());
    };
    let Some(mut inside) = take_group(&mut ahead, Bracket::Curly) else {
        return Ok(());
    };
    let block = ImplBlock {
        module,
        owner: put_owner(items, path)?,
    };
    read_own_items(rules, names, items, block, &mut inside)
}
