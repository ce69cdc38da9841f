//! How many lifetimes an item has as parameters, and a name of a path is given.

ghost use Rattle.std.specs.Prelude.{◌≡◌};
ghost use Rattle.rust_source.specs.Lifetimes.{comma_behind, lifetimes_declared, lifetimes_next};

use crate::reader::cursor::{Cursor, is_lifetime, take};
use crate::reader::generics::pass_attributes;
use crate::reader::passing::pass_bounds;

/// Passes over a `,`, where it is next.
fn pass_comma(cursor: &mut Cursor<'_>)
    ensures { cursor.new ≡ comma_behind cursor.old }
{
    let _ = take(cursor, b',');
}

/// How many lifetimes are next: they stand before all other parameters and arguments.
#[tactic(auto, unfolding(crate::specs::Lifetimes::lifetimes_next), using(crate::proofs::GenericTurns::lifetimes_more, crate::proofs::GenericTurns::lifetimes_end, crate::proofs::GenericTurns::lifetimes_done))]
pub(crate) fn lifetimes_next(cursor: &Cursor<'_>) -> u32
    ensures { result ≡ lifetimes_next cursor.now }
{
    let mut count = 0u32;
    let mut left = *cursor;
    let turns = cursor.end.saturating_sub(cursor.at);
    for turn in 0..turns {
        pass_attributes(&mut left);
        if !is_lifetime(&left) {
            return count;
        }
        count = count.saturating_add(1);
        let _ = pass_bounds(&mut left);
        pass_comma(&mut left);
    }
    count
}

/// How many of the parameters are lifetimes whose `<` is next.
pub(crate) fn lifetimes_declared(cursor: &Cursor<'_>) -> u32
    ensures { result ≡ lifetimes_declared cursor.now }
{
    let mut inside = *cursor;
    if take(&mut inside, b'<') {
        return lifetimes_next(&inside);
    }
    0
}
