//! Predicates of `cfg`.

ghost use Rattle.std.specs.Prelude.{◌≡◌, ◌≤◌, ◌∷◌, ◌++◌, [], IfErr, IfOk, length};
ghost use Rattle.std.specs.Option.{option_map};
ghost use Rattle.rust_source.specs.Cfg.{combined, count_read, counting, escape_length, escape_taken, family_name, has_escapes, gives_some_value, gives_value, has_flag, has_value, is_one_text, is_set_alone, is_text, is_value_set, is_valued, option_value, known_or, listed_value, next_code, next_value, option_answer, option_read, other_value, plain_value, predicate_read, predicate_with, raw_value, stands_for, string_value, taken_of, value_as_read, with_symbol, with_unknown};
ghost use Rattle.rust_source.specs.Names.{texts};
ghost use Rattle.rust_source.specs.Reading.{Reads, read_as};

use crate::fault::{SourceFault, SourceFaultKind};
use crate::names::Names;
use crate::place::Symbol;
use crate::reader::cursor::{
    Cursor, expect_comma, fault, is_done, nth, pass, take, take_group, text_of,
};
use crate::reader::depth::one_level_deeper;
use crate::reader::literals::{bytes_between, escape_code};
use crate::reader::naming::word_text;
use crate::target::{CfgOption, CfgTarget, Family};
use crate::tokens::token::{Bracket, TokenKind};
use crate::tokens::{Run, byte_at, bytes_after, escaped_length, run_length};

/// The name of a family of systems.
fn family_name(family: Family) -> &'static str
    ensures { result.now ≡ family_name family }
{
    match family {
        Family::Unix => "unix",
        Family::Windows => "windows",
        Family::Wasm => "wasm",
        Family::Neither => "",
    }
}

/// What a string stands for: what lies between its quotes.
#[derive(Clone, Copy)]
struct CfgValue<'a> {
    inside: &'a [u8],
    /// Whether it has no escapes, since the string is raw.
    is_raw: bool,
}

/// The code that an escape of so many bytes stands for, with what follows it.
fn escape_taken(rest: &[u8], length: Option<usize>) -> Option<(u32, &[u8])>
    ensures { option_map taken_of result ≡ escape_taken rest.now length }
{
    let length = length?;
    let escape = rest.get(..length)?;
    let code = escape_code(escape)?;
    Some((code, bytes_after(rest, length)))
}

/// How many bytes an escape has behind its backslash. None where it has no end.
#[tactic(auto, unfolding(crate::specs::Cfg::escape_length))]
fn escape_length(rest: &[u8]) -> Option<usize>
    ensures { result ≡ escape_length rest.now }
{
    match byte_at(rest, 0) {
        b'x' => Some(3),
        b'u' => escaped_length(rest, b'}'),
        _ => Some(1),
    }
}

/// The byte, or the code of the escape, that is next between a string's quotes, with what follows it.
#[tactic(auto, unfolding(crate::specs::Cfg::next_code))]
fn next_code(inside: &[u8]) -> Option<(u32, &[u8])>
    ensures { option_map taken_of result ≡ next_code inside.now }
{
    let first = *inside.first()?;
    let rest = bytes_after(inside, 1);
    if first == b'\\' {
        escape_taken(rest, escape_length(rest))
    } else {
        Some((u32::from(first), rest))
    }
}

/// Whether each escape between a string's quotes is one that there is.
#[tactic(auto, unfolding(crate::specs::Cfg::has_escapes), using(crate::proofs::CfgTurns::more, crate::proofs::CfgTurns::done))]
fn has_escapes(inside: &[u8]) -> bool
    ensures { result ≡ has_escapes inside.now }
{
    let mut rest = inside;
    let turns = inside.len();
    for turn in 0..turns {
        if rest.is_empty() {
            return true;
        }
        let Some((_code, more)) = next_code(rest) else {
            return false;
        };
        rest = more;
    }
    rest.is_empty()
}

/// Whether what lies between a string's quotes stands for a text.
#[tactic(auto, using(crate::proofs::CfgTurns::stops))]
fn stands_for(inside: &[u8], text: &[u8]) -> bool
    ensures { result ≡ stands_for inside.now text.now }
{
    let mut rest = inside;
    for byte in text {
        let Some((code, more)) = next_code(rest) else {
            return false;
        };
        if code != u32::from(*byte) {
            return false;
        }
        rest = more;
    }
    rest.is_empty()
}

/// Whether a string stands for a text.
fn is_text(value: CfgValue<'_>, text: &str) -> bool
    ensures { result ≡ is_text (value_as_read value.entry) text.now }
{
    if value.is_raw {
        value.inside == text.as_bytes()
    } else {
        stands_for(value.inside, text.as_bytes())
    }
}

/// Whether a string stands for one of these texts.
fn is_one_text(texts: &[&str], value: CfgValue<'_>) -> bool
    ensures { result ≡ is_one_text texts.now (value_as_read value.entry) }
{
    for text in texts {
        if is_text(value, text) {
            return true;
        }
    }
    false
}

/// Whether one of what is set is this name alone.
fn is_set_alone(options: &[CfgOption<'_>], name: &str) -> bool
    ensures { result ≡ is_set_alone options.now name.now }
{
    for option in options {
        if option.value.is_none() && option.name == name {
            return true;
        }
    }
    false
}

/// Whether an option gives this name a value.
fn gives_some_value(option: &CfgOption<'_>, name: &str) -> bool
    ensures { result ≡ gives_some_value name.now option.now }
{
    option.value.is_some() && option.name == name
}

/// Whether an option gives this name this value.
fn gives_value(option: &CfgOption<'_>, name: &str, value: CfgValue<'_>) -> bool
    ensures { result ≡ gives_value name.now (value_as_read value.entry) option.now }
{
    match option.value {
        Some(text) => option.name == name && is_text(value, text),
        None => false,
    }
}

/// Whether one of what is set gives this name a value.
fn is_valued(options: &[CfgOption<'_>], name: &str) -> bool
    ensures { result ≡ is_valued options.now name.now }
{
    for option in options {
        if gives_some_value(option, name) {
            return true;
        }
    }
    false
}

/// Whether one of what is set gives this name this value.
fn is_value_set(options: &[CfgOption<'_>], name: &str, value: CfgValue<'_>) -> bool
    ensures { result ≡ is_value_set options.now name.now (value_as_read value.entry) }
{
    for option in options {
        if gives_value(option, name, value) {
            return true;
        }
    }
    false
}

/// Whether this value is set under this name. None where no value is.
fn option_value(target: &CfgTarget<'_>, name: &str, value: CfgValue<'_>) -> Option<bool>
    ensures { result ≡ option_value target.now name.now (value_as_read value.entry) }
{
    if is_valued(target.options, name) {
        Some(is_value_set(target.options, name, value))
    } else {
        None
    }
}

/// Whether the target has this value under this name. None where the name isn't known.
#[tactic(auto, unfolding(crate::specs::Cfg::has_value))]
fn has_value(target: &CfgTarget<'_>, name: &str, value: CfgValue<'_>) -> Option<bool>
    ensures { result ≡ has_value target.now name.now (value_as_read value.entry) }
{
    if name == "target_pointer_width" {
        Some(is_text(value, target.pointer_width))
    } else if name == "target_endian" {
        let endian = if target.is_big_endian {
            "big"
        } else {
            "little"
        };
        Some(is_text(value, endian))
    } else if name == "target_arch" {
        Some(is_text(value, target.arch))
    } else if name == "target_os" {
        Some(is_text(value, target.os))
    } else if name == "target_env" {
        Some(is_text(value, target.env))
    } else {
        other_value(target, name, value)
    }
}

/// Whether the target has this value under this name, which is none of those above. None where the name isn't known.
#[tactic(auto, unfolding(crate::specs::Cfg::other_value))]
fn other_value(target: &CfgTarget<'_>, name: &str, value: CfgValue<'_>) -> Option<bool>
    ensures { result ≡ other_value target.now name.now (value_as_read value.entry) }
{
    if name == "target_abi" {
        Some(is_text(value, target.abi))
    } else if name == "target_vendor" {
        Some(is_text(value, target.vendor))
    } else if name == "target_family" {
        Some(!is_text(value, "") && is_text(value, family_name(target.family)))
    } else if name == "panic" {
        Some(is_text(value, target.panic))
    } else {
        listed_value(target, name, value)
    }
}

/// Whether the target has this value under this name, which has several. None where the name isn't known.
#[tactic(auto, unfolding(crate::specs::Cfg::listed_value))]
fn listed_value(target: &CfgTarget<'_>, name: &str, value: CfgValue<'_>) -> Option<bool>
    ensures { result ≡ listed_value target.now name.now (value_as_read value.entry) }
{
    if name == "target_has_atomic" {
        Some(is_one_text(target.atomics, value))
    } else if name == "target_feature" {
        Some(is_one_text(target.features, value))
    } else if name == "feature" && !target.crate_features.is_empty() {
        Some(is_one_text(target.crate_features, value))
    } else {
        option_value(target, name, value)
    }
}

/// Whether a name alone holds of the target. None where it isn't known.
#[tactic(auto, unfolding(crate::specs::Cfg::has_flag))]
fn has_flag(target: &CfgTarget<'_>, name: &str) -> Option<bool>
    ensures { result ≡ has_flag target.now name.now }
{
    if name == "true" || name == "debug_assertions" {
        Some(true)
    } else if name == "false" {
        Some(false)
    } else if name == "unix" {
        Some(target.family == Family::Unix)
    } else if name == "windows" {
        Some(target.family == Family::Windows)
    } else if name == "target_has_atomic" {
        Some(!target.atomics.is_empty())
    } else if is_set_alone(target.options, name) {
        Some(true)
    } else {
        None
    }
}

/// Puts a symbol behind the others, unless it is among them.
fn put_symbol(all: &mut Vec<Symbol>, one: Symbol) -> Result<(), SourceFault>
    ensures ok { IfOk result (λ _. all.new.items ≡ with_symbol all.old.items one) }
    ensures err { IfErr result (λ fault. fault.kind ≡ SourceFaultKind.OutOfMemory) }
{
    if !all.contains(&one) {
        all.push(one)?;
    }
    Ok(())
}

/// Keeps a name that isn't known, once.
fn keep_unknown(names: &mut Names, unknown: &mut Vec<Symbol>, name: &str) -> Result<(), SourceFault>
    ensures ok { IfOk result (λ _. (texts names.new, unknown.new.items) ≡ with_unknown name.now
        (texts names.old, unknown.old.items)) }
    ensures err { IfErr result (λ fault. fault.kind ≡ SourceFaultKind.OutOfMemory) }
{
    let name = names.add(name)?;
    put_symbol(unknown, name)
}

/// What a string with escapes stands for. None where one of them is none that there is.
fn plain_value(text: &[u8]) -> Option<CfgValue<'_>>
    ensures { option_map value_as_read result ≡ plain_value text.now }
{
    let inside = bytes_between(text, b'"', b'"')?;
    if has_escapes(inside) {
        Some(CfgValue {
            inside,
            is_raw: false,
        })
    } else {
        None
    }
}

/// What a raw string stands for: what lies between its quotes, before the first of which `r` and so many `#` stand.
#[tactic(auto, unfolding(crate::specs::Cfg::raw_value))]
fn raw_value(text: &[u8], hashes: usize) -> Option<CfgValue<'_>>
    requires { hashes ≤ length text.now }
    ensures { option_map value_as_read result ≡ raw_value hashes text.now }
{
    let rest = bytes_after(text, hashes + 2);
    let bytes = rest.len().checked_sub(hashes + 1)?;
    let inside = rest.get(..bytes)?;
    Some(CfgValue {
        inside,
        is_raw: true,
    })
}

/// What a string stands for. None for those of bytes and of C.
#[tactic(auto, unfolding(crate::specs::Cfg::string_value))]
fn string_value(text: &[u8]) -> Option<CfgValue<'_>>
    ensures { option_map value_as_read result ≡ string_value text.now }
{
    match byte_at(text, 0) {
        b'"' => plain_value(text),
        b'r' => raw_value(text, run_length(bytes_after(text, 1), Run::Hashes)),
        _ => None,
    }
}

/// What the string that is next stands for.
#[tactic(auto, unfolding(crate::specs::Cfg::next_value))]
fn next_value<'a>(cursor: &Cursor<'a>) -> Option<CfgValue<'a>>
    ensures { option_map value_as_read result ≡ next_value cursor.now }
{
    match nth(cursor, 0) {
        Some(token) => match token.kind {
            TokenKind::Text => string_value(text_of(cursor, token).as_bytes()),
            _ => None,
        },
        None => None,
    }
}

/// Whether a name, or a name and its value, holds, behind its name. None where it isn't known.
#[tactic(auto, unfolding(crate::specs::Cfg::option_answer))]
fn option_answer(
    target: &CfgTarget<'_>,
    name: &str,
    cursor: &mut Cursor<'_>,
) -> Result<Option<bool>, SourceFault>
    ensures { read_as (λ found. (found, cursor.new)) result
        ≡ option_answer target.now name.now cursor.old }
{
    if !take(cursor, b'=') {
        return Ok(has_flag(target, name));
    }
    match next_value(cursor) {
        Some(value) => {
            pass(cursor, 1);
            Ok(has_value(target, name, value))
        }
        None => Err(fault(cursor, SourceFaultKind::BadCfg)),
    }
}

/// Whether a name, or a name and its value, holds. The name is next.
#[tactic(auto, unfolding(crate::specs::Cfg::option_read))]
fn is_option(
    names: &mut Names,
    unknown: &mut Vec<Symbol>,
    target: &CfgTarget<'_>,
    cursor: &mut Cursor<'_>,
) -> Result<bool, SourceFault>
    ensures { Reads (λ holds. (holds, cursor.new)) (option_read target.now cursor.old (texts names.old, unknown.old.items))
        (texts names.new, unknown.new.items) result }
{
    let name = word_text(cursor);
    if name.is_empty() {
        return Err(fault(cursor, SourceFaultKind::BadCfg));
    }
    pass(cursor, 1);
    match option_answer(target, name, cursor)? {
        Some(holds) => Ok(holds),
        None => {
            keep_unknown(names, unknown, name)?;
            Ok(false)
        }
    }
}

/// How many there are with one more, where it counts.
fn counted(so_many: usize, counts: bool) -> usize
    ensures { result ≡ counting so_many counts }
{
    if counts {
        so_many.saturating_add(1)
    } else {
        so_many
    }
}

/// How many of the predicates of a list hold, and how many there are.
#[cycle(predicates)]
#[tactic(auto, unfolding(crate::specs::Cfg::count_read), using(crate::proofs::ItemTurns::count_more, crate::proofs::ItemTurns::count_done))]
fn count_holding(
    names: &mut Names,
    unknown: &mut Vec<Symbol>,
    target: &CfgTarget<'_>,
    cursor: &mut Cursor<'_>,
    depth_left: u32,
) -> Result<(usize, usize), SourceFault>
    ensures { Reads (λ count. count) (count_read target.now (predicate_read target.now depth_left) cursor.old (texts names.old, unknown.old.items))
        (texts names.new, unknown.new.items) result }
{
    let mut holding = 0usize;
    let mut count = 0usize;
    let turns = cursor.end.saturating_sub(cursor.at);
    for turn in 0..turns {
        if is_done(cursor) {
            return Ok((holding, count));
        }
        let holds = is_predicate(names, unknown, target, cursor, depth_left)?;
        holding = counted(holding, holds);
        count = counted(count, true);
        expect_comma(cursor)?;
    }
    Ok((holding, count))
}

/// Whether a predicate of this name, which stands at the cursor, holds of a list of so many, of which so many hold.
#[tactic(auto, unfolding(crate::specs::Cfg::combined))]
fn combined(
    cursor: &Cursor<'_>,
    name: &str,
    holding: usize,
    count: usize,
) -> Result<bool, SourceFault>
    ensures { result ≡ combined cursor.now name.now holding count }
{
    if name == "all" {
        Ok(holding == count)
    } else if name == "any" {
        Ok(holding > 0)
    } else if name == "not" && count == 1 {
        Ok(holding == 0)
    } else {
        Err(fault(cursor, SourceFaultKind::BadCfg))
    }
}

/// Whether the predicate that is next holds of the target, whose lists stand one level deeper.
#[cycle(predicates)]
#[tactic(auto, unfolding(crate::specs::Cfg::predicate_with))]
fn is_predicate_within(
    names: &mut Names,
    unknown: &mut Vec<Symbol>,
    target: &CfgTarget<'_>,
    cursor: &mut Cursor<'_>,
    depth_left: u32,
) -> Result<bool, SourceFault>
    ensures { Reads (λ holds. (holds, cursor.new))
        (predicate_with target.now (predicate_read target.now depth_left) cursor.old (texts names.old, unknown.old.items))
        (texts names.new, unknown.new.items) result }
{
    let mut behind = *cursor;
    pass(&mut behind, 1);
    let Some(mut inside) = take_group(&mut behind, Bracket::Round) else {
        return is_option(names, unknown, target, cursor);
    };
    let (holding, count) = count_holding(names, unknown, target, &mut inside, depth_left)?;
    let holds = combined(cursor, word_text(cursor), holding, count)?;
    *cursor = behind;
    Ok(holds)
}

/// Whether the predicate that is next holds of the target. Names that aren't known count as false, and are kept.
#[cycle(predicates)]
#[tactic(auto, using(crate::proofs::ItemTurns::predicate_less, crate::proofs::ItemTurns::predicate_none))]
pub(crate) fn is_predicate(
    names: &mut Names,
    unknown: &mut Vec<Symbol>,
    target: &CfgTarget<'_>,
    cursor: &mut Cursor<'_>,
    depth_left: u32,
) -> Result<bool, SourceFault>
    ensures { Reads (λ holds. (holds, cursor.new)) (predicate_read target.now depth_left cursor.old (texts names.old, unknown.old.items))
        (texts names.new, unknown.new.items) result }
{
    let depth_left = one_level_deeper(cursor, depth_left)?;
    is_predicate_within(names, unknown, target, cursor, depth_left)
}
