//! How types are laid out, as trees; and all that the crates below export, under one name.
#![tactic(auto)]

// The layout of a tree, and why it has none.
mod error;
mod lay;
mod layout_cx;

// The way down a tree, and nodes.
mod lay_tree;
mod node;

// A node of each kind.
mod lay_array;
mod lay_coroutine;
mod lay_enum;
mod lay_fields;
mod lay_ordered;
mod lay_scalar;
mod lay_union;
mod lay_vector;

// What enums and coroutines ask before.
mod conflicts;
mod coroutine_fault;
mod discriminants;
mod tag_integer;

pub use abi_base::{
    AbiAlign, AbiFromStrErr, AddressSpace, AddressSpaces, Align, AlignFromBytesError, Endian,
    Float, HasDataLayout, Integer, IntegerType, KeyedList, MAX_SIMD_LANES, NicheOptimizations,
    NoSuchInteger, NumScalableVectors, NumberError, Numeric, PointeeInfo, PointerKind, PointerSpec,
    Primitive, RegKind, ScalableElt, Size, StructKind, TargetDataLayout, TargetDataLayoutError,
    UnknownEndian, UnknownEndianText, VectorAligns,
};
pub use abi_calc::LayoutCalculator;
pub use abi_index::{
    BitMatrix, BitRowIter, BitSetIter, DenseBitSet, FIRST_VARIANT, FieldIdx, Hash64, Idx,
    IndexList, IndexSlice, IndexVec, Indices, RangeSet, TryClone, VariantIdx,
};
pub use abi_scalar::{
    BackendLaneCount, BackendRepr, FieldCount, FieldsShape, IncreasingOffset,
    LayoutCalculatorError, LayoutData, LayoutHandle, Niche, RangeFrom, RangeFull, RangeInclusive,
    RangeToInclusive, ReprFlags, ReprOptions, Scalar, TagEncoding, VariantLayout, Variants,
    WrappingRange,
};
pub use abi_tree::{
    Laid, PartBytes, PartName, TreeTy, TypeTree, Value, ValueError, read_value, write_value,
};
pub use abi_types::{
    ArmCall, CVariadicStatus, CanonAbi, ExternAbi, Heterogeneous, HomogeneousAggregate,
    InterruptKind, Layout, Reg, TyAbiInterface, TyAndLayout, X86Call, all_names,
};
pub use error::LayError;
pub use lay::lay_out;
