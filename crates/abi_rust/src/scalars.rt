//! The scalars of primitive types and pointers.

ghost use Rattle.std.specs.Prelude.{◌≡◌, ◌≤◌};
ghost use Rattle.abi_base.specs.DataLayout.{index_integer as integer_of_index};
ghost use Rattle.abi_tree.specs.Tree.{tree_of};
ghost use Rattle.abi_rust.specs.Scalars.{address, cut_scalar, function_tree, instruction_space, limited_tree, pointer_tree, scalar_width, full_scalar, ranged_scalar, type_of_kind, integer_primitive, named_tree};

use crate::tail::Tail;
use crate::ty::Primitive as Named;
use abi_base::{AddressSpace, Integer, IntegerType, Primitive, Size, TargetDataLayout};
use abi_scalar::{Scalar, WrappingRange};
use abi_tree::TypeTree;
use rust_source::IntegerKind;

/// The greatest code of a character.
const LAST_CHAR: u128 = 0x10ffff;

/// How many bytes a primitive has, 1 to 16: a pointer with another number of bytes is refused when it's laid out.
fn width(dl: &TargetDataLayout, value: Primitive) -> Size
    ensures some { 1 ≤ result }
    ensures most { result ≤ 16 }
    ensures value { result ≡ scalar_width dl.now value }
{
    let size = match value {
        Primitive::Int(integer, _) => integer.size(),
        Primitive::Float(float) => float.size(),
        Primitive::Pointer(space) => {
            if dl.knows(space) {
                dl.pointer_size_in(space)
            } else {
                dl.pointer_size()
            }
        }
    };
    Size::from_bytes(size.bytes().min(16).max(1))
}

/// A primitive with every number of its width.
fn full(dl: &TargetDataLayout, value: Primitive) -> Scalar
    ensures { result ≡ full_scalar dl.now value }
{
    Scalar::Initialized {
        value,
        valid_range: WrappingRange::full(width(dl, value)),
    }
}

/// A primitive with the numbers of a range, cut to its width.
fn ranged(dl: &TargetDataLayout, value: Primitive, start: u128, end: u128) -> Scalar
    ensures { result ≡ ranged_scalar dl.now value start end }
{
    let all = WrappingRange::full(width(dl, value));
    Scalar::Initialized {
        value,
        valid_range: WrappingRange {
            start: start.min(all.end),
            end: end.min(all.end),
        },
    }
}

/// The integer type that a repr or an enum's discriminants have.
pub(crate) fn integer_type(kind: IntegerKind) -> IntegerType
    ensures { result ≡ type_of_kind kind }
{
    match kind {
        IntegerKind::I8 => IntegerType::Fixed(Integer::I8, true),
        IntegerKind::I16 => IntegerType::Fixed(Integer::I16, true),
        IntegerKind::I32 => IntegerType::Fixed(Integer::I32, true),
        IntegerKind::I64 => IntegerType::Fixed(Integer::I64, true),
        IntegerKind::I128 => IntegerType::Fixed(Integer::I128, true),
        IntegerKind::Isize => IntegerType::Pointer(true),
        IntegerKind::U8 => IntegerType::Fixed(Integer::I8, false),
        IntegerKind::U16 => IntegerType::Fixed(Integer::I16, false),
        IntegerKind::U32 => IntegerType::Fixed(Integer::I32, false),
        IntegerKind::U64 => IntegerType::Fixed(Integer::I64, false),
        IntegerKind::U128 => IntegerType::Fixed(Integer::I128, false),
        IntegerKind::Usize => IntegerType::Pointer(false),
    }
}

/// An integer type as a primitive. One as wide as an index has as many bytes as a pointer's index.
fn primitive_of(dl: &TargetDataLayout, kind: IntegerKind) -> Primitive
    ensures { result ≡ integer_primitive dl.now kind }
{
    match integer_type(kind) {
        IntegerType::Fixed(integer, is_signed) => Primitive::Int(integer, is_signed),
        IntegerType::Pointer(is_signed) => Primitive::Int(index_integer(dl), is_signed),
    }
}

/// The integer as wide as an index: of 64 bits where a pointer has none of these widths.
fn index_integer(dl: &TargetDataLayout) -> Integer
    ensures { result ≡ integer_of_index dl.now.default_address_space_pointer_spec.pointer_offset }
{
    match dl.pointer_offset().bytes() {
        2 => Integer::I16,
        4 => Integer::I32,
        _ => Integer::I64,
    }
}

/// The tree of a primitive type with a name. None for `str`, which has no size.
pub(crate) fn named_tree(dl: &TargetDataLayout, primitive: Named) -> Option<TypeTree>
    ensures { result ≡ named_tree dl.now primitive }
{
    match primitive {
        Named::Bool => Some(TypeTree::Scalar(ranged(dl, Primitive::Int(Integer::I8, false), 0, 1))),
        Named::Char => {
            let value = Primitive::Int(Integer::I32, false);
            Some(TypeTree::Scalar(ranged(dl, value, 0, LAST_CHAR)))
        }
        Named::Str => None,
        Named::Integer(kind) => Some(TypeTree::Scalar(full(dl, primitive_of(dl, kind)))),
        Named::Float(float) => Some(TypeTree::Scalar(full(dl, Primitive::Float(float)))),
    }
}

/// A pointer's address, which is null only where it may be.
fn address_of(dl: &TargetDataLayout, may_be_null: bool) -> Scalar
    ensures { result ≡ address dl.now may_be_null }
{
    let value = Primitive::Pointer(dl.default_address_space);
    if may_be_null {
        full(dl, value)
    } else {
        ranged(dl, value, 1, u128::MAX)
    }
}

/// The tree of a pointer, which is null only where it may be.
pub(crate) fn pointer(dl: &TargetDataLayout, tail: Tail, may_be_null: bool) -> TypeTree
    ensures { result ≡ pointer_tree dl.now tail may_be_null }
{
    let address = address_of(dl, may_be_null);
    match tail {
        Tail::Sized => TypeTree::Scalar(address),
        Tail::Length => {
            let length = full(dl, Primitive::Int(index_integer(dl), false));
            TypeTree::Pair(address, length)
        }
        Tail::Table => TypeTree::Pair(address, address_of(dl, false)),
    }
}

/// The space of instructions, or the default one where the data layout doesn't know it.
fn instruction_space(dl: &TargetDataLayout) -> AddressSpace
    ensures { result ≡ instruction_space dl.now }
{
    if dl.knows(dl.instruction_address_space) {
        dl.instruction_address_space
    } else {
        dl.default_address_space
    }
}

/// The tree of a function pointer, which is never null.
pub(crate) fn function(dl: &TargetDataLayout) -> TypeTree
    ensures { result ≡ function_tree dl.now }
{
    let value = Primitive::Pointer(instruction_space(dl));
    TypeTree::Scalar(ranged(dl, value, 1, u128::MAX))
}

/// The scalar with the numbers of a range alone, as far as it has them.
fn cut_scalar(dl: &TargetDataLayout, scalar: Scalar, start: u128, end: u128) -> Scalar
    ensures { result ≡ cut_scalar dl.now start end scalar }
{
    match scalar {
        Scalar::Initialized { value, valid_range } => {
            ranged(dl, value, start, end.min(valid_range.end))
        }
        Scalar::Union { value } => Scalar::Union { value },
    }
}

/// The tree with its first scalar limited to a range, where it is one scalar or two.
pub(crate) fn limited(dl: &TargetDataLayout, tree: TypeTree, start: u128, end: u128) -> TypeTree
    ensures { tree_of result ≡ limited_tree dl.now start end (tree_of tree) }
{
    match tree {
        TypeTree::Scalar(scalar) => TypeTree::Scalar(cut_scalar(dl, scalar, start, end)),
        TypeTree::Pair(first, second) => TypeTree::Pair(cut_scalar(dl, first, start, end), second),
        other => other,
    }
}
