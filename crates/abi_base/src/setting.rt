//! What a spec of a data layout string sets.

use crate::address_space::AddressSpace;
use crate::align::Align;
use crate::endian::Endian;
use crate::pointer_spec::PointerSpec;
use crate::size::Size;

/// What a word names an alignment of: lists of fields, or a float.
#[derive(Clone, Copy)]
pub(crate) enum AlignedWord {
    Aggregate,
    F16,
    F32,
    F64,
    F128,
}

/// What a spec sets.
#[derive(Clone, Copy)]
pub(crate) enum Setting {
    /// The byte order.
    Order(Endian),
    /// The space of functions.
    Instructions(AddressSpace),
    /// The alignment of lists of fields, or of a float.
    Aligned(AlignedWord, Align),
    /// The pointers of a space.
    Pointer(AddressSpace, PointerSpec),
    /// The alignment of integers, by their width in bits.
    Integer(u64, Align),
    /// The alignment of vectors of a size.
    Vector(Size, Align),
    /// Nothing that is kept.
    Nothing,
}
