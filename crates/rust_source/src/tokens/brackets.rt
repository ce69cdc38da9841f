//! Brackets and their partners.

ghost use Rattle.std.specs.Prelude.{◌≡◌, ◌+◌, ◌-◌, ◌≤◌, ◌^◌, length, slice_get};
ghost use Rattle.rust_source.specs.Tokens.{Yields, all_closed, group_closed, group_opened, is_same, token_put, with_partner};

use crate::fault::{SourceFault, SourceFaultKind};
use crate::tokens::token::{Bracket, Token, TokenKind};
use crate::tokens::{as_place, fault_at};

/// How many brackets may stand within one another.
const MOST_NESTED: usize = 200;

/// A bracket that has no partner yet.
#[derive(Clone, Copy)]
pub(crate) struct Opened {
    bracket: Bracket,
    /// Its index among the tokens.
    index: u32,
    /// Where it stands.
    start: u32,
}

/// Whether two brackets are of one kind.
fn is_same(one: Bracket, other: Bracket) -> bool
    ensures { result ≡ is_same one other }
{
    match (one, other) {
        (Bracket::Round, Bracket::Round)
        | (Bracket::Square, Bracket::Square)
        | (Bracket::Curly, Bracket::Curly) => true,
        _ => false,
    }
}

/// Tells an opening bracket's token which one closes it.
fn set_partner(found: &mut Vec<Token>, index: u32, partner: u32)
    ensures written { found.new.items ≡ with_partner found.old.items index partner }
    ensures kept { length found.new.items ≡ length found.old.items }
{
    let index = index as usize;
    if index < found.len() {
        let mut token = found[index];
        token.partner = partner;
        found[index] = token;
    }
}

/// The bracket that was opened last of those that have no partner yet.
fn last_open(open: &Vec<Opened>) -> Option<Opened>
    ensures { result ≡ slice_get «open».now.items (length «open».now.items - 1) }
{
    match open.last() {
        Some(opened) => Some(*opened),
        None => None,
    }
}

/// Puts a bracket that opens a group behind the tokens that are found.
fn open_group(
    found: &mut Vec<Token>,
    open: &mut Vec<Opened>,
    token: Token,
    bracket: Bracket,
) -> Result<(), SourceFault>
    requires { length found.old.items ≤ 2 ^ 30 }
    ensures same { Yields (λ _. (found.new.items, «open».new.items))
        (group_opened (found.old.items, «open».old.items) token bracket) result }
    ensures longer { length found.new.items ≤ length found.old.items + 1 }
{
    let start = token.start;
    if open.len() > MOST_NESTED {
        return Err(fault_at(start as usize, SourceFaultKind::TooDeep));
    }
    let index = as_place(found.len());
    open.push(Opened {
        bracket,
        index,
        start,
    })?;
    found.push(token)?;
    Ok(())
}

/// Puts a bracket that closes a group behind the tokens that are found.
fn close_group(
    found: &mut Vec<Token>,
    open: &mut Vec<Opened>,
    token: Token,
    bracket: Bracket,
) -> Result<(), SourceFault>
    requires { length found.old.items ≤ 2 ^ 30 }
    ensures same { let last = slice_get «open».old.items (length «open».old.items - 1) in
        Yields (λ _. (found.new.items, «open».new.items))
        (group_closed (found.old.items, «open».old.items) token bracket last) result }
    ensures longer { length found.new.items ≤ length found.old.items + 1 }
{
    let unmatched = fault_at(token.start as usize, SourceFaultKind::UnmatchedBracket);
    let Some(opened) = last_open(open) else {
        return Err(unmatched);
    };
    if !is_same(opened.bracket, bracket) {
        return Err(unmatched);
    }
    let _ = open.pop();
    set_partner(found, opened.index, as_place(found.len()));
    found.push(Token {
        partner: opened.index,
        ..token
    })?;
    Ok(())
}

/// Puts a token behind those that are found, and keeps which brackets are open.
#[tactic(auto, unfolding(crate::specs::Tokens::token_put))]
pub(crate) fn put_token(
    found: &mut Vec<Token>,
    open: &mut Vec<Opened>,
    token: Token,
) -> Result<(), SourceFault>
    requires { length found.old.items ≤ 2 ^ 30 }
    ensures same { Yields (λ _. (found.new.items, «open».new.items))
        (token_put (found.old.items, «open».old.items) token) result }
    ensures longer { length found.new.items ≤ length found.old.items + 1 }
{
    match token.kind {
        TokenKind::Open(bracket) => open_group(found, open, token, bracket),
        TokenKind::Close(bracket) => close_group(found, open, token, bracket),
        _ => {
            found.push(token)?;
            Ok(())
        }
    }
}

/// The tokens, where no bracket is open at the end.
pub(crate) fn close_all(found: Vec<Token>, open: &Vec<Opened>) -> Result<Vec<Token>, SourceFault>
    ensures { let last = slice_get «open».now.items (length «open».now.items - 1) in
        Yields (λ tokens. tokens.items) (all_closed found.items last) result }
{
    match last_open(open) {
        Some(opened) => Err(fault_at(opened.start as usize, SourceFaultKind::UnmatchedBracket)),
        None => Ok(found),
    }
}
