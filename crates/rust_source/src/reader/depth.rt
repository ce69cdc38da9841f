//! How deep a source may nest.

ghost use Rattle.std.specs.Prelude.{◌≡◌, ◌+◌, IfErr, IfOk};
ghost use Rattle.rust_source.specs.Simple.{most_nested};
ghost use Rattle.rust_source.specs.Cursor.{fault};

use crate::fault::{SourceFault, SourceFaultKind};
use crate::reader::cursor::{Cursor, fault};

/// How many others a type, an expression, an attribute or a module may stand in.
const MOST_NESTED: u32 = 200;

/// How many others a type or an expression may stand in.
#[tactic(auto, unfolding(crate::specs::Simple::most_nested))]
pub(crate) fn most_nested() -> u32
    ensures { result ≡ most_nested }
{
    MOST_NESTED
}

/// How many others may stand in one another within what begins at the next token.
pub(crate) fn one_level_deeper(cursor: &Cursor<'_>, depth_left: u32) -> Result<u32, SourceFault>
    ensures ok { IfOk result (λ left. left + 1 ≡ depth_left) }
    ensures err { IfErr result (λ e. (depth_left ≡ 0) × (e ≡ fault cursor.now SourceFaultKind.TooDeep)) }
{
    match depth_left.checked_sub(1) {
        Some(left) => Ok(left),
        None => Err(fault(cursor, SourceFaultKind::TooDeep)),
    }
}
