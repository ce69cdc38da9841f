//! Why cells don't hold a type: the first part of it that they don't hold, and the way to it.

ghost use Rattle.std.specs.Prelude.{◌≡◌, IfOk, IfSome, None};
ghost use Rattle.abi_bytes.specs.GoesInto.{HoldStored, stored_of};
ghost use Rattle.abi_bytes.specs.NotHeld.{IsWhyNotHeld};

use crate::cell_walk::CellWalk;
use crate::wrong_parts::node_wrong;
use abi_scalar::Scalar;
use abi_tree::Laid;
use std::alloc::{AllocError, Global};

/// A step from a type to a part of it.
#[derive(Clone, Copy)]
pub enum PartStep {
    /// To the field with this index, in source order; of a coroutine to a prefix field.
    Field(usize),
    /// Of the variant, or state, with the first index to the field with the second.
    VariantField(usize, usize),
    /// To the element with this index.
    Element(u64),
    /// To a vector's lanes, which are the elements of an array.
    Lanes,
    /// To the tag, which distinguishes variants.
    Tag,
}

/// Why cells don't hold a part of a type.
#[derive(Clone, Copy)]
pub enum Why {
    /// Of the part's cells this one, counted from the part's start, is the first that isn't initialised.
    Unset(u64),
    /// They make this number, which isn't one of the scalar's.
    OutOfRange(u128, Scalar),
    /// They are a tag, and make this number, which names no variant.
    NoVariant(u128),
    /// No cells hold the part.
    NoValue,
    /// They aren't as many as the type is large.
    OtherSize,
}

/// A part of a type that cells don't hold.
#[derive(Clone, Copy)]
pub struct WrongPart {
    /// The place of its first cell in the type.
    pub start: u64,
    /// How many cells it has.
    pub size: u64,
    /// Why they don't hold it.
    pub why: Why,
}

/// That cells don't hold a type.
#[derive(Drop)]
pub struct NotHeld {
    /// The way from the type to the part: none where that is the type itself.
    pub way: Vec<PartStep>,
    /// The part that they don't hold.
    pub part: WrongPart,
}

/// Why cells, bytes or nothing where none is initialised, don't hold a type: the first part of it, in the order of fields and
/// elements, that they don't hold, with the way to it, its place, and the reason. Of an enum it is a field of the variant that
/// the tag names, or the tag. `None` where they hold the type. `AllocError` where memory is refused.
pub fn why_not_held(
    alloc: Global,
    laid: &Laid,
    cells: &[Option<u8>],
) -> Result<Option<NotHeld>, AllocError>
    ensures none { IfOk result (λ found. found ≡ None → HoldStored (stored_of laid.now) cells.now) }
    ensures some { IfOk result (λ found. IfSome found (λ f. HoldStored (stored_of laid.now) cells.now → ⊥)) }
    ensures why { IfOk result (λ found. IfSome found (IsWhyNotHeld (stored_of laid.now) cells.now)) }
{
    let size = laid.layout().size.bytes();
    if cells.len() as u64 != size {
        let part = WrongPart {
            start: 0,
            size,
            why: Why::OtherSize,
        };
        let way = Vec::new(alloc);
        return Ok(Some(NotHeld { way, part }));
    }
    let nodes = laid.nodes();
    let walk = CellWalk {
        alloc,
        order: laid.endian(),
        nodes,
        cells,
    };
    node_wrong(walk, nodes.len() - 1, 0)
}
