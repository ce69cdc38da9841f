//! Calls of `cfg!`, which are decided before a source is read.

ghost use Rattle.std.specs.Prelude.{◌≡◌, IfErr, IfOk};
ghost use Rattle.rust_source.specs.CfgCalls.{call_holds, call_value, calls_of, cfg_call, defines_cfg, holds_at, if_known, is_cfg_call, put_call, with_call};
ghost use Rattle.rust_source.specs.Syntax.{expr_of};

use crate::fault::{SourceFault, SourceFaultKind};
use crate::names::Names;
use crate::place::Place;
use crate::reader::cfg::is_predicate;
use crate::reader::constants::is_wanting;
use crate::reader::cursor::{
    CfgCall, Cursor, is_done, is_nth, pass, pass_tree, place, take, take_group,
};
use crate::reader::depth::most_nested;
use crate::reader::naming::is_named;
use crate::syntax::{Expr, Unevaluated};
use crate::target::CfgTarget;
use crate::tokens::token::Bracket;
use std::alloc::Global;

/// Whether a call of `cfg!` is next.
#[tactic(auto, unfolding(crate::specs::CfgCalls::is_cfg_call))]
pub(crate) fn is_cfg_call(cursor: &Cursor<'_>) -> bool
    ensures { result ≡ is_cfg_call cursor.now }
{
    is_nth(cursor, 1, b'!') && is_named(cursor, "cfg")
}

/// Whether another macro of this name is defined here.
#[tactic(auto, unfolding(crate::specs::CfgCalls::defines_cfg))]
fn defines_cfg(cursor: &Cursor<'_>) -> bool
    ensures { result ≡ defines_cfg cursor.now }
{
    if !is_nth(cursor, 1, b'!') {
        return false;
    }
    let mut behind = *cursor;
    pass(&mut behind, 2);
    is_named(cursor, "macro_rules") && is_named(&behind, "cfg")
}

/// Whether it holds, where it is all that is given, and each name is known.
fn if_known(is_all: bool, is_known: bool, holds: bool) -> Option<bool>
    ensures { result ≡ if_known is_all is_known holds }
{
    if is_all && is_known {
        Some(holds)
    } else {
        None
    }
}

/// Whether the call that is next holds of the target. None where a name in it isn't known.
#[tactic(auto, unfolding(crate::specs::CfgCalls::call_holds))]
fn call_holds(
    alloc: Global,
    target: &CfgTarget<'_>,
    cursor: &Cursor<'_>,
) -> Result<Option<bool>, SourceFault>
    ensures ok { IfOk result (λ found. found ≡ call_holds target.now cursor.now) }
    ensures err { IfErr result (λ fault. fault.kind ≡ SourceFaultKind.OutOfMemory) }
{
    let mut behind = *cursor;
    pass(&mut behind, 2);
    let Some(mut inside) = take_group(&mut behind, Bracket::Round) else {
        return Ok(None);
    };
    let mut names = Names::new(alloc)?;
    let mut unknown = Vec::new(alloc);
    match is_predicate(&mut names, &mut unknown, target, &mut inside, most_nested()) {
        Ok(holds) => {
            let _has_comma = take(&mut inside, b',');
            Ok(if_known(is_done(&inside), unknown.is_empty(), holds))
        }
        Err(fault) => {
            if is_wanting(fault.kind) {
                Err(fault)
            } else {
                Ok(None)
            }
        }
    }
}

/// Puts the call behind the others whose first token has this index, where it is decided.
fn put_call(all: &mut Vec<CfgCall>, index: usize, holds: Option<bool>) -> Result<(), SourceFault>
    ensures ok { IfOk result (λ _. all.new.items ≡ put_call all.old.items index holds) }
    ensures err { IfErr result (λ fault. fault.kind ≡ SourceFaultKind.OutOfMemory) }
{
    if let Some(holds) = holds {
        all.push(CfgCall { at: index, holds })?;
    }
    Ok(())
}

/// Adds the call that is next, where one is, and it is decided.
fn add_call(
    alloc: Global,
    target: &CfgTarget<'_>,
    all: &mut Vec<CfgCall>,
    cursor: &Cursor<'_>,
) -> Result<(), SourceFault>
    ensures ok { IfOk result (λ _. all.new.items ≡ with_call target.now all.old.items cursor.now) }
    ensures err { IfErr result (λ fault. fault.kind ≡ SourceFaultKind.OutOfMemory) }
{
    if is_cfg_call(cursor) {
        let holds = call_holds(alloc, target, cursor)?;
        return put_call(all, cursor.at, holds);
    }
    Ok(())
}

/// The calls among the tokens that are decided for a target. There are none where another macro has the name.
#[tactic(auto, unfolding(crate::specs::CfgCalls::calls_of), using(crate::proofs::CfgCallTurns::more, crate::proofs::CfgCallTurns::done))]
pub(crate) fn calls_of(
    alloc: Global,
    target: &CfgTarget<'_>,
    tokens: &Cursor<'_>,
) -> Result<Vec<CfgCall>, SourceFault>
    ensures ok { IfOk result (λ all. all.items ≡ calls_of target.now tokens.now) }
    ensures err { IfErr result (λ fault. fault.kind ≡ SourceFaultKind.OutOfMemory) }
{
    let mut all = Vec::new(alloc);
    let mut ahead = *tokens;
    let turns = ahead.end.saturating_sub(ahead.at);
    for turn in 0..turns {
        if defines_cfg(&ahead) {
            return Ok(Vec::new(alloc));
        }
        add_call(alloc, target, &mut all, &ahead)?;
        pass(&mut ahead, 1);
    }
    Ok(all)
}

/// Whether the call holds whose first token has this index. None where it isn't decided.
fn holds_at(calls: &[CfgCall], index: usize) -> Option<bool>
    ensures { result ≡ holds_at calls.now index }
{
    for call in calls {
        if call.at == index {
            return Some(call.holds);
        }
    }
    None
}

/// What a call is worth that holds, or doesn't, or isn't decided.
fn call_value(at: Place, holds: Option<bool>) -> Expr
    ensures { expr_of result ≡ call_value at holds }
{
    match holds {
        Some(holds) => Expr::Bool(holds, at),
        None => Expr::Unevaluated(Unevaluated::Macro, at),
    }
}

/// What the call of `cfg!` is worth that is next.
#[tactic(auto, unfolding(crate::specs::CfgCalls::cfg_call))]
pub(crate) fn read_cfg_call(cursor: &mut Cursor<'_>) -> Expr
    ensures { (expr_of result, cursor.new) ≡ cfg_call cursor.old }
{
    let value = call_value(place(cursor), holds_at(cursor.calls, cursor.at));
    pass(cursor, 2);
    pass_tree(cursor);
    value
}
