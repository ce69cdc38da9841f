//! Each function called on a type of scalars, a struct and an enum: what they ask can be shown.

ghost use Rattle.std.specs.Prelude.{IfOk};
ghost use Rattle.abi_base.specs.declared.data_layout.TargetDataLayout.{TargetDataLayout as Target};
ghost use Rattle.abi_tree.specs.Tree.{tree_of};
ghost use Rattle.abi_tree.specs.Values.{LocalsHaveValues};
ghost use Rattle.abi_tree.specs.OfTree.{IsOfTree};

use crate::binding_generator::c_offsets;
use crate::code_generator::load;
use crate::debugger::{field_of, read_back};
use crate::fuzzer::{flip, ignore};
use rustc_abi::{
    Integer, Laid, LayError, Primitive, ReprOptions, Scalar, Size, TargetDataLayout, TypeTree,
    Value, ValueError, WrappingRange, lay_out,
};
use std::alloc::{AllocError, Global};

/// An unsigned integer up to this number.
fn number(width: Integer, end: u128) -> TypeTree
    ensures { (dl : Target) → LocalsHaveValues dl (tree_of result) }
{
    TypeTree::Scalar(Scalar::Initialized {
        value: Primitive::Int(width, false),
        valid_range: WrappingRange { start: 0, end },
    })
}

/// A struct of a flag, and of an enum that has 32 bits or nothing.
fn flagged(alloc: Global) -> Result<TypeTree, AllocError>
    ensures { IfOk result (λ tree. (dl : Target) → LocalsHaveValues dl (tree_of tree)) }
{
    let some = (0, vec![in alloc; number(Integer::I32, 0xFFFF_FFFF)]?);
    let none = (1, Vec::new(alloc));
    let choice = TypeTree::Enum {
        repr: ReprOptions::default(),
        variants: vec![in alloc; some, none]?,
    };
    Ok(TypeTree::Struct {
        repr: ReprOptions::default(),
        always_sized: true,
        fields: vec![in alloc; number(Integer::I8, 1), choice]?,
    })
}

/// Whether the value is one of the type's, and was read back.
fn comes_back(alloc: Global, laid: &Laid, value: &Value) -> Result<bool, LayError>
    requires laid { IsOfTree laid.now }
{
    match read_back(alloc, laid, value) {
        Ok(_read) => Ok(true),
        Err(ValueError::NotAValue) => Ok(false),
        Err(ValueError::OutOfMemory) => Err(LayError::OutOfMemory),
    }
}

/// Whether the bytes hold a list with a field of this index.
fn has_field(alloc: Global, laid: &Laid, bytes: &[u8], index: usize) -> Result<bool, AllocError>
    requires laid { IsOfTree laid.now }
{
    Ok(field_of(alloc, laid, bytes, index)?.is_some())
}

/// Whether the bytes hold a value, with a byte of padding changed.
fn holds_still(
    alloc: Global,
    laid: &Laid,
    bytes: &mut [u8],
    place: usize,
) -> Result<bool, AllocError>
    requires laid { IsOfTree laid.now }
{
    Ok(ignore(alloc, laid, bytes, place, 0xFF)?.is_some())
}

/// Whether the byte at the place decides something.
fn is_decider(alloc: Global, laid: &Laid, place: u64) -> Result<bool, AllocError>
    requires laid { IsOfTree laid.now }
{
    Ok(flip(alloc, laid, place)?.is_some())
}

/// Hands a type to the functions that take one.
fn try_laid(alloc: Global, laid: &Laid, value: &Value, bytes: &mut [u8]) -> Result<bool, LayError>
    requires laid { IsOfTree laid.now }
{
    let back = comes_back(alloc, laid, value)?;
    let field = has_field(alloc, laid, bytes, 0)?;
    let still = holds_still(alloc, laid, bytes, 3)?;
    let decides = is_decider(alloc, laid, 0)?;
    Ok(back && field && still && decides)
}

/// Lays a tree out, and hands the type to the functions that take one.
fn try_tree(
    alloc: Global,
    dl: &TargetDataLayout,
    tree: &TypeTree,
    value: &Value,
    bytes: &mut [u8],
) -> Result<bool, LayError>
    requires locals { LocalsHaveValues dl.now (tree_of tree.now) }
{
    let laid = lay_out(alloc, dl, tree)?;
    try_laid(alloc, &laid, value, bytes)
}

/// How many bytes a struct of a byte and 32 bits has in C.
fn size_in_c(alloc: Global, dl: &TargetDataLayout) -> Result<Size, LayError> {
    let byte = number(Integer::I8, 0xFF);
    let word = number(Integer::I32, 0xFFFF_FFFF);
    Ok(c_offsets(alloc, dl, vec![in alloc; byte, word]?)?.size)
}

/// Whether the bytes hold a flag, which is loaded.
fn loads_flag(alloc: Global, dl: &TargetDataLayout, bytes: &[u8]) -> Result<bool, LayError> {
    let flag = number(Integer::I8, 1);
    Ok(load(alloc, dl, &flag, bytes)?.is_some())
}

/// Calls each of the functions: a flag is loaded and a struct laid out as in C; then a struct of a flag and an enum is
/// laid out and handed, with this value and these bytes, to `read_back`, `field_of`, `ignore` and `flip`. Nothing calls
/// it: that it is proved shows that what they ask can be met.
fn try_all(
    alloc: Global,
    dl: &TargetDataLayout,
    value: &Value,
    bytes: &mut [u8],
) -> Result<bool, LayError> {
    let _size = size_in_c(alloc, dl)?;
    let _is_flag = loads_flag(alloc, dl, bytes)?;
    let tree = flagged(alloc)?;
    try_tree(alloc, dl, &tree, value, bytes)
}
