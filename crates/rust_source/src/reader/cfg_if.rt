//! Calls of `cfg_if!`, of the crate `cfg-if`.

ghost use Rattle.std.specs.Prelude.{◌≡◌, map};
ghost use Rattle.rust_source.specs.CfgIf.{branch_next, brings_in, call_next, chosen_items, has_own, behind_path, is_brought_by, is_brought_in, is_cfg_if, is_else_if, is_no_call, is_twice, is_whole_path, last_items, predicate_alone, predicate_in, standing_items};
ghost use Rattle.rust_source.specs.Growth.{KeepsItems};
ghost use Rattle.rust_source.specs.Items.{items_as_read, use_of};
ghost use Rattle.rust_source.specs.Names.{texts};
ghost use Rattle.rust_source.specs.Reading.{Reads};

use crate::fault::{SourceFault, SourceFaultKind};
use crate::item::{Items, Use, UsedName};
use crate::names::Names;
use crate::place::Symbol;
use crate::reader::attributes::Rules;
use crate::reader::cfg::is_predicate;
use crate::reader::cursor::{
    Cursor, fault, is_done, is_next, is_pair, is_word, pass, take, take_group, take_pair, take_word,
};
use crate::reader::depth::most_nested;
use crate::reader::naming::{is_named, word_text};
use crate::target::CfgTarget;
use crate::tokens::keyword::Keyword;
use crate::tokens::token::Bracket;

/// The name of the crate in paths, and of its macro.
const NAME: &str = "cfg_if";

/// A branch of a call.
#[derive(Clone, Copy)]
pub(crate) struct Branch<'a> {
    /// What stands in the parentheses of its `cfg`.
    pub predicate: Cursor<'a>,
    /// Its items.
    pub body: Cursor<'a>,
    /// What stands behind it.
    pub rest: Cursor<'a>,
}

/// Whether the name is next.
fn is_cfg_if(cursor: &Cursor<'_>) -> bool
    ensures { result ≡ is_cfg_if cursor.now }
{
    word_text(cursor) == NAME
}

/// Whether `cfg_if::cfg_if` is next.
#[tactic(auto, unfolding(crate::specs::CfgIf::is_whole_path))]
fn is_whole_path(cursor: &Cursor<'_>) -> bool
    ensures { result ≡ is_whole_path cursor.now }
{
    if !is_cfg_if(cursor) {
        return false;
    }
    let mut behind_crate = *cursor;
    let mut behind_colons = *cursor;
    pass(&mut behind_crate, 1);
    pass(&mut behind_colons, 3);
    is_pair(&behind_crate, b':', b':') && is_cfg_if(&behind_colons)
}

/// Whether the name is next, without a `!` behind it.
fn is_no_call(cursor: &Cursor<'_>) -> bool
    ensures { result ≡ is_no_call cursor.now }
{
    if !is_cfg_if(cursor) {
        return false;
    }
    let mut behind = *cursor;
    pass(&mut behind, 1);
    !is_next(&behind, b'!')
}

/// Whether the name stands among the tokens otherwise than in `cfg_if::cfg_if` and in calls: it may be another thing's, as
/// of a macro or a module of the source.
#[tactic(auto, unfolding(crate::specs::CfgIf::has_own), using(crate::proofs::CfgIfTurns::own_more, crate::proofs::CfgIfTurns::own_done))]
pub(crate) fn has_own(tokens: &Cursor<'_>) -> bool
    ensures { result ≡ has_own tokens.now }
{
    let mut ahead = *tokens;
    let turns = ahead.end.saturating_sub(ahead.at);
    for turn in 0..turns {
        if is_whole_path(&ahead) {
            pass(&mut ahead, 4);
        } else if is_no_call(&ahead) {
            return true;
        } else {
            pass(&mut ahead, 1);
        }
    }
    false
}

/// Whether a path is this name and again this name.
fn is_twice(path: &[UsedName], name: Symbol) -> bool
    ensures { result ≡ is_twice name path.now }
{
    match path {
        [first, second] => first.name == name && second.name == name,
        _ => false,
    }
}

/// Whether a use brings in what this name has in what this name is.
fn brings_in(one: &Use, module: u32, name: Symbol) -> bool
    ensures { result ≡ brings_in «module» name (use_of one.now) }
{
    one.module == module && one.name == Some(name) && is_twice(&one.path, name)
}

/// Whether one of the uses does.
fn is_brought_by(uses: &[Use], module: u32, name: Symbol) -> bool
    ensures { result ≡ is_brought_by «module» name (map use_of uses.now) }
{
    for one in uses {
        if brings_in(one, module, name) {
            return true;
        }
    }
    false
}

/// Whether a use of the module brings in the macro.
#[tactic(auto, unfolding(crate::specs::CfgIf::is_brought_in))]
fn is_brought_in(names: &Names, uses: &[Use], module: u32) -> bool
    ensures { result ≡ is_brought_in «module» (texts names.now) (map use_of uses.now) }
{
    match names.find(NAME) {
        Some(name) => is_brought_by(uses, module, name),
        None => false,
    }
}

/// Passes over the path of the macro, and says whether it was next.
#[tactic(auto, unfolding(crate::specs::CfgIf::behind_path))]
fn behind_path<'a>(
    names: &Names,
    uses: &[Use],
    module: u32,
    cursor: &Cursor<'a>,
) -> Option<Cursor<'a>>
    ensures { result ≡ behind_path «module» (texts names.now) (map use_of uses.now) cursor.now }
{
    let mut ahead = *cursor;
    let _ = take_pair(&mut ahead, b':', b':');
    if is_whole_path(&ahead) {
        pass(&mut ahead, 4);
        return Some(ahead);
    }
    if is_cfg_if(cursor) && is_brought_in(names, uses, module) {
        let mut behind = *cursor;
        pass(&mut behind, 1);
        return Some(behind);
    }
    None
}

/// What stands in the braces of the call that is next.
#[tactic(auto, unfolding(crate::specs::CfgIf::call_next))]
fn call_next<'a>(
    rules: &Rules<'_>,
    names: &Names,
    uses: &[Use],
    module: u32,
    cursor: &Cursor<'a>,
) -> Option<Cursor<'a>>
    ensures { result ≡ call_next rules.now «module» (texts names.now) (map use_of uses.now) cursor.now }
{
    if rules.has_own_cfg_if {
        return None;
    }
    let mut ahead = behind_path(names, uses, module, cursor)?;
    if !take(&mut ahead, b'!') {
        return None;
    }
    take_group(&mut ahead, Bracket::Curly)
}

/// The predicate of the `cfg` that is all in an attribute's brackets.
pub(crate) fn predicate_in<'a>(inside: &Cursor<'a>) -> Option<Cursor<'a>>
    ensures { result ≡ predicate_in (Some inside.now) }
{
    if !is_named(inside, "cfg") {
        return None;
    }
    let mut ahead = *inside;
    pass(&mut ahead, 1);
    let predicate = take_group(&mut ahead, Bracket::Round)?;
    if is_done(&ahead) {
        Some(predicate)
    } else {
        None
    }
}

/// The branch that is next.
#[tactic(auto, unfolding(crate::specs::CfgIf::branch_next))]
fn branch_next<'a>(cursor: &Cursor<'a>) -> Option<Branch<'a>>
    ensures { result ≡ branch_next cursor.now }
{
    let mut behind_if = *cursor;
    let mut rest = *cursor;
    pass(&mut behind_if, 1);
    pass(&mut rest, 2);
    if !is_word(cursor, Keyword::If) || !is_next(&behind_if, b'#') {
        return None;
    }
    let attribute = take_group(&mut rest, Bracket::Square)?;
    let predicate = predicate_in(&attribute)?;
    let body = take_group(&mut rest, Bracket::Curly)?;
    Some(Branch {
        predicate,
        body,
        rest,
    })
}

/// Whether another branch is next, behind `else`.
fn is_else_if(cursor: &Cursor<'_>) -> bool
    ensures { result ≡ is_else_if cursor.now }
{
    let mut behind = *cursor;
    pass(&mut behind, 1);
    is_word(cursor, Keyword::Else) && is_word(&behind, Keyword::If)
}

/// The items behind the last `else`, or none where nothing is left.
#[tactic(auto, unfolding(crate::specs::CfgIf::last_items))]
fn last_items<'a>(cursor: &Cursor<'a>) -> Option<Cursor<'a>>
    ensures { result ≡ last_items cursor.now }
{
    if is_done(cursor) {
        return Some(*cursor);
    }
    if !is_word(cursor, Keyword::Else) {
        return None;
    }
    let mut ahead = *cursor;
    pass(&mut ahead, 1);
    let items = take_group(&mut ahead, Bracket::Curly)?;
    if is_done(&ahead) { Some(items) } else { None }
}

/// Whether the predicate holds that is all that is left.
#[tactic(auto, unfolding(crate::specs::CfgIf::predicate_alone))]
pub(crate) fn is_predicate_alone(
    names: &mut Names,
    unknown: &mut Vec<Symbol>,
    target: &CfgTarget<'_>,
    predicate: &Cursor<'_>,
) -> Result<bool, SourceFault>
    ensures { Reads (λ holds. holds) (predicate_alone target.now predicate.now (texts names.old, unknown.old.items))
        (texts names.new, unknown.new.items) result }
{
    let mut ahead = *predicate;
    let holds = is_predicate(names, unknown, target, &mut ahead, most_nested())?;
    if is_done(&ahead) {
        Ok(holds)
    } else {
        Err(fault(&ahead, SourceFaultKind::BadCfg))
    }
}

/// The items that stand in place of a call with these branches: those of the first whose `cfg` holds. None where what stands
/// there isn't of that form.
#[tactic(auto, unfolding(crate::specs::CfgIf::standing_items), using(crate::proofs::CfgIfTurns::standing_more, crate::proofs::CfgIfTurns::standing_done))]
fn standing_items<'a>(
    names: &mut Names,
    unknown: &mut Vec<Symbol>,
    target: &CfgTarget<'_>,
    branches: &Cursor<'a>,
) -> Result<Option<Cursor<'a>>, SourceFault>
    ensures { Reads (λ found. found) (standing_items target.now branches.now (texts names.old, unknown.old.items))
        (texts names.new, unknown.new.items) result }
{
    let mut ahead = *branches;
    let turns = ahead.end.saturating_sub(ahead.at);
    for turn in 0..turns {
        let Some(branch) = branch_next(&ahead) else {
            return Ok(None);
        };
        if is_predicate_alone(names, unknown, target, &branch.predicate)? {
            return Ok(Some(branch.body));
        }
        if !is_else_if(&branch.rest) {
            return Ok(last_items(&branch.rest));
        }
        ahead = branch.rest;
        pass(&mut ahead, 1);
    }
    Ok(None)
}

/// The items that stand in place of the call of `cfg_if!` that is next, in the module with this number. None where they
/// aren't known, or no such call is next.
#[tactic(auto, unfolding(crate::specs::CfgIf::chosen_items))]
pub(crate) fn chosen_items<'a>(
    rules: &Rules<'_>,
    names: &mut Names,
    items: &mut Items,
    module: u32,
    cursor: &Cursor<'a>,
) -> Result<Option<Cursor<'a>>, SourceFault>
    ensures kept { KeepsItems items.old items.new }
    ensures read { Reads (λ found. found) (chosen_items rules.now «module» cursor.now (texts names.old, items_as_read items.old))
        (texts names.new, items_as_read items.new) result }
{
    match call_next(rules, names, &items.uses, module, cursor) {
        Some(branches) => {
            standing_items(names, &mut items.unknown_cfgs, &rules.target, &branches)
        }
        None => Ok(None),
    }
}
