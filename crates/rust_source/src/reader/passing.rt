//! What is passed over: bounds, angle brackets, and items that make no types.

ghost use Rattle.std.specs.Prelude.{◌≡◌, ◌==◌, ◌&&◌, ◌||◌};
ghost use Rattle.rust_source.specs.Cursor.{kind_of_token};
ghost use Rattle.rust_source.specs.Passing.{angles_passed, body_passed, bounds, ends_at_semicolon, ends_bounds, ends_item, is_question, item_passed, names_constant, one_passed, open_behind, semicolon_passed};

use crate::reader::cursor::{
    Cursor, is_next, is_pair, next_kind, nth, pass, pass_tree, pass_until, take,
};
use crate::tokens::keyword::Keyword;
use crate::tokens::token::{Bracket, Token, TokenKind};

/// Whether the next token ends bounds that stand in no angle brackets.
fn ends_bounds(kind: TokenKind) -> bool
    ensures { result ≡ ends_bounds kind }
{
    match kind {
        TokenKind::Punct(character) => {
            character == b',' || character == b';' || character == b'=' || character == b'>'
        }
        TokenKind::Open(Bracket::Curly) | TokenKind::Keyword(Keyword::Where) => true,
        _ => false,
    }
}

/// Whether a token is a `?`.
fn is_question(kind: TokenKind) -> bool
    ensures { result ≡ is_question kind }
{
    kind == TokenKind::Punct(b'?')
}

/// Whether bounds end at a token within so many angle brackets.
fn ends_here(kind: TokenKind, depth: u64) -> bool
    ensures { result ≡ ((depth == 0) && ends_bounds kind) }
{
    depth == 0 && ends_bounds(kind)
}

/// Whether a `?` has been met outside of angle brackets.
fn asks_here(has_question: bool, kind: TokenKind, depth: u64) -> bool
    ensures { result ≡ (has_question || ((depth == 0) && is_question kind)) }
{
    has_question || depth == 0 && is_question(kind)
}

/// How many angle brackets are open behind what is next.
#[tactic(auto, unfolding(crate::specs::Passing::open_behind))]
fn open_behind(cursor: &Cursor<'_>, depth: u64) -> u64
    ensures { result ≡ open_behind cursor.now depth }
{
    if is_pair(cursor, b'-', b'>') {
        depth
    } else if is_next(cursor, b'<') {
        depth.saturating_add(1)
    } else if is_next(cursor, b'>') {
        depth.saturating_sub(1)
    } else {
        depth
    }
}

/// Passes over the next token or group, or a `->`.
#[tactic(auto, unfolding(crate::specs::Passing::one_passed))]
fn pass_one(cursor: &mut Cursor<'_>)
    ensures { cursor.new ≡ one_passed cursor.old }
{
    if is_pair(cursor, b'-', b'>') {
        pass(cursor, 2);
    } else {
        pass_tree(cursor);
    }
}

/// Passes over the next token or group, and is how many angle brackets are open behind it.
fn pass_counting(cursor: &mut Cursor<'_>, depth: u64) -> u64
    ensures counted { result ≡ open_behind cursor.old depth }
    ensures passed { cursor.new ≡ one_passed cursor.old }
{
    let after = open_behind(cursor, depth);
    pass_one(cursor);
    after
}

/// Passes over bounds: up to a `,`, `;`, `=`, `>`, `{` or `where` that stands in no brackets. Says whether a `?` is
/// among them, as in `?Sized`.
#[tactic(auto, unfolding(crate::specs::Passing::bounds), using(crate::proofs::Turns::bounds_more, crate::proofs::Turns::bounds_done))]
pub(crate) fn pass_bounds(cursor: &mut Cursor<'_>) -> bool
    ensures { (result, cursor.new) ≡ bounds cursor.old }
{
    let mut depth = 0u64;
    let mut has_question = false;
    let turns = cursor.end.saturating_sub(cursor.at);
    for turn in 0..turns {
        let Some(kind) = next_kind(cursor) else {
            return has_question;
        };
        if ends_here(kind, depth) {
            return has_question;
        }
        has_question = asks_here(has_question, kind, depth);
        depth = pass_counting(cursor, depth);
    }
    has_question
}

/// Passes over angle brackets and what they have, where they are next.
#[tactic(auto, unfolding(crate::specs::Passing::angles_passed), using(crate::proofs::Turns::angles_more, crate::proofs::Turns::angles_done))]
pub(crate) fn pass_angles(cursor: &mut Cursor<'_>)
    ensures { cursor.new ≡ angles_passed cursor.old }
{
    if !is_next(cursor, b'<') {
        return;
    }
    let mut depth = 0u64;
    let turns = cursor.end.saturating_sub(cursor.at);
    for turn in 0..turns {
        depth = pass_counting(cursor, depth);
        if depth == 0 {
            return;
        }
    }
}

/// Passes over an item up to its `;`, outside of groups.
#[tactic(auto, unfolding(crate::specs::Passing::semicolon_passed))]
fn pass_to_semicolon(cursor: &mut Cursor<'_>)
    ensures { cursor.new ≡ semicolon_passed cursor.old }
{
    pass_until(cursor, b';');
    let _ = take(cursor, b';');
}

/// Whether a token ends an item, with the group that it opens or alone.
fn ends_item(kind: TokenKind) -> bool
    ensures { result ≡ ends_item kind }
{
    match kind {
        TokenKind::Punct(character) => character == b';',
        TokenKind::Open(Bracket::Curly) => true,
        _ => false,
    }
}

/// Whether an item ends with a token within so many angle brackets.
fn ends_item_here(kind: TokenKind, depth: u64) -> bool
    ensures { result ≡ ((depth == 0) && ends_item kind) }
{
    depth == 0 && ends_item(kind)
}

/// Passes over an item up to its `;` or the end of its braces, outside of angle brackets and groups.
#[tactic(auto, unfolding(crate::specs::Passing::body_passed), using(crate::proofs::Turns::body_more, crate::proofs::Turns::body_done))]
fn pass_to_body(cursor: &mut Cursor<'_>)
    ensures { cursor.new ≡ body_passed cursor.old }
{
    let mut depth = 0u64;
    let turns = cursor.end.saturating_sub(cursor.at);
    for turn in 0..turns {
        let Some(kind) = next_kind(cursor) else {
            return;
        };
        let ends = ends_item_here(kind, depth);
        depth = pass_counting(cursor, depth);
        if ends {
            return;
        }
    }
}

/// Whether a token names a constant.
fn names_constant(token: Option<Token>) -> bool
    ensures { result ≡ names_constant (kind_of_token token) }
{
    match token {
        Some(token) => match token.kind {
            TokenKind::Name | TokenKind::RawName | TokenKind::Keyword(Keyword::Underscore) => true,
            _ => false,
        },
        None => false,
    }
}

/// Whether the item that is next ends at a `;` even where it has braces.
fn ends_at_semicolon(cursor: &Cursor<'_>) -> bool
    ensures { result ≡ ends_at_semicolon cursor.now }
{
    match next_kind(cursor) {
        Some(TokenKind::Keyword(Keyword::Const)) => names_constant(nth(cursor, 1)),
        Some(TokenKind::Keyword(Keyword::Static | Keyword::Type | Keyword::Use)) => true,
        _ => false,
    }
}

/// Passes over an item, behind its attributes and its `pub`.
#[tactic(auto, unfolding(crate::specs::Passing::item_passed))]
pub(crate) fn pass_item(cursor: &mut Cursor<'_>)
    ensures { cursor.new ≡ item_passed cursor.old }
{
    if ends_at_semicolon(cursor) {
        pass_to_semicolon(cursor);
    } else {
        pass_to_body(cursor);
    }
}
